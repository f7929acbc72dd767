// The Rust's `Expander`, on a lent table: each writer puts its nodes from position k on, where the table has room for them. The result is the last node.
ghost use Rattle.std.specs.Prelude.{◌≡◌, [], ◌∷◌, ◌+◌, ◌*◌, ◌≤◌, length};
ghost use Rattle.block.specs.Kinds.{recip_length, tanh_length};
ghost use Rattle.expand.specs.Nodes as N;
ghost use Rattle.expand.specs.Macros as M;
ghost use Rattle.expand.specs.Writes.{write};

// The codes of the nodes that macros are made of. Numbers, and no enum: they are words of the lent table ("All values are 32-bit words").
const CONSTANT: u32 = 1;

const ADD: u32 = 5;

const SUB: u32 = 6;

const MUL: u32 = 7;

const MIN: u32 = 8;

const MAX: u32 = 9;

const SUB_BITS: u32 = 10;

// The Rust's constants, as f32 bits.
const MAGIC: u32 = 0x7ef3_11c7; // RECIP_MAGIC

const TWO: u32 = 0x4000_0000; // 2.0

const LOW: u32 = 0xc09f_0a3d; // -TANH_LIMIT, -4.97

const HIGH: u32 = 0x409f_0a3d; // TANH_LIMIT, 4.97

const ONE: u32 = 0x3f80_0000; // 1.0

const TOP_SECOND: u32 = 0x43bd_0000; // 378.0

const TOP_FIRST: u32 = 0x4687_5a00; // 17325.0

const LAST: u32 = 0x4803_f7c0; // 135_135.0, of numerator and denominator

const BOTTOM_THIRD: u32 = 0x41e0_0000; // 28.0

const BOTTOM_SECOND: u32 = 0x4544_e000; // 3150.0

const BOTTOM_FIRST: u32 = 0x4773_a200; // 62370.0

const HALF: u32 = 0x3f00_0000; // 0.5

// One node.
pub fn put(table: &mut [u32], k: u32, code: u32, first: u32, second: u32)
    requires { 3 * (k + 1) ≤ length table.old }
    ensures { table.new ≡ write table.old k (N.node code first second ∷ []) }
{
    let at = 3 * (k as usize);
    table[at] = code;
    table[at + 1] = first;
    table[at + 2] = second;
}

fn newton_step(table: &mut [u32], k: u32, x: u32, estimate: u32, two: u32)
    requires { (k + 3 ≤ 65536) × (3 * (k + 3) ≤ length table.old) }
    ensures { table.new ≡ write table.old k (M.newton 1 k x estimate two) }
{
    put(table, k, MUL, x, estimate);
    put(table, k + 1, SUB, two, k);
    put(table, k + 2, MUL, k + 1, estimate);
}

// The loop of `recip_steps`.
fn newton(table: &mut [u32], k: u32, x: u32, estimate: u32, two: u32, steps: u32)
    requires { (k + steps * 3 ≤ 65536) × (3 * (k + steps * 3) ≤ length table.old) }
    ensures { table.new ≡ write table.old k (M.newton steps k x estimate two) }
{
    let mut at = k;
    let mut last = estimate;
    for left in (0..steps).rev() {
        newton_step(table, at, x, last, two);
        last = at + 2;
        at += 3;
    }
}

pub fn recip(table: &mut [u32], k: u32, x: u32, steps: u32)
    requires { (k + recip_length steps ≤ 65536) × (3 * (k + recip_length steps) ≤ length table.old) }
    ensures { table.new ≡ write table.old k (M.recip steps k x) }
{
    put(table, k, CONSTANT, MAGIC, 0);
    put(table, k + 1, CONSTANT, TWO, 0);
    put(table, k + 2, SUB_BITS, k, x);
    newton(table, k + 3, x, k + 2, k + 1, steps);
}

// lhs * recip(rhs).
pub fn divide(table: &mut [u32], k: u32, lhs: u32, rhs: u32, steps: u32)
    requires { (k + (recip_length steps + 1) ≤ 65536) × (3 * (k + (recip_length steps + 1)) ≤ length table.old) }
    ensures { table.new ≡ write table.old k (M.divide steps k lhs rhs) }
{
    recip(table, k, rhs, steps);
    let inverse = k + 2 + steps * 3;
    put(table, inverse + 1, MUL, lhs, inverse);
}

// a + x * b, where a is a constant.
fn mul_add(table: &mut [u32], k: u32, a: u32, x: u32, b: u32)
    requires { (k + 3 ≤ 65536) × (3 * (k + 3) ≤ length table.old) }
    ensures { table.new ≡ write table.old k (M.mul_add k a x b) }
{
    put(table, k, CONSTANT, a, 0);
    put(table, k + 1, MUL, x, b);
    put(table, k + 2, ADD, k, k + 1);
}

// The clamped input, its square and 1.
fn tanh_input(table: &mut [u32], k: u32, x: u32)
    requires { (k + 6 ≤ 65536) × (3 * (k + 6) ≤ length table.old) }
    ensures { table.new ≡ write table.old k (M.tanh_input k x) }
{
    put(table, k, CONSTANT, LOW, 0);
    put(table, k + 1, CONSTANT, HIGH, 0);
    put(table, k + 2, MAX, x, k);
    put(table, k + 3, MIN, k + 2, k + 1);
    put(table, k + 4, MUL, k + 3, k + 3);
    put(table, k + 5, CONSTANT, ONE, 0);
}

// From position k + 6 on.
fn tanh_numerator(table: &mut [u32], k: u32)
    requires { (k + 16 ≤ 65536) × (3 * (k + 16) ≤ length table.old) }
    ensures { table.new ≡ write table.old (k + 6) (M.tanh_numerator k) }
{
    mul_add(table, k + 6, TOP_SECOND, k + 4, k + 5);
    mul_add(table, k + 9, TOP_FIRST, k + 4, k + 8);
    mul_add(table, k + 12, LAST, k + 4, k + 11);
    put(table, k + 15, MUL, k + 3, k + 14);
}

// From position k + 16 on.
fn tanh_denominator(table: &mut [u32], k: u32)
    requires { (k + 26 ≤ 65536) × (3 * (k + 26) ≤ length table.old) }
    ensures { table.new ≡ write table.old (k + 16) (M.tanh_denominator k) }
{
    put(table, k + 16, CONSTANT, BOTTOM_THIRD, 0);
    mul_add(table, k + 17, BOTTOM_SECOND, k + 4, k + 16);
    mul_add(table, k + 20, BOTTOM_FIRST, k + 4, k + 19);
    mul_add(table, k + 23, LAST, k + 4, k + 22);
}

// Numerator times inverse, by the Newton steps of the inner reciprocal.
pub fn tanh(table: &mut [u32], k: u32, x: u32, steps: u32)
    requires { (k + tanh_length steps ≤ 65536) × (3 * (k + tanh_length steps) ≤ length table.old) }
    ensures { table.new ≡ write table.old k (M.tanh steps k x) }
{
    tanh_input(table, k, x);
    tanh_numerator(table, k);
    tanh_denominator(table, k);
    recip(table, k + 26, k + 25, steps);
    let inverse = k + 25 + (3 + steps * 3);
    put(table, inverse + 1, MUL, k + 15, inverse);
}

// 0.5 + 0.5 tanh(x / 2).
pub fn sigmoid(table: &mut [u32], k: u32, x: u32, steps: u32)
    requires { (k + (2 + tanh_length steps + 2) ≤ 65536) × (3 * (k + (2 + tanh_length steps + 2)) ≤ length table.old) }
    ensures { table.new ≡ write table.old k (M.sigmoid steps k x) }
{
    put(table, k, CONSTANT, HALF, 0);
    put(table, k + 1, MUL, x, k);
    tanh(table, k + 2, k + 1, steps);
    let length = 26 + (3 + steps * 3) + 1;
    let curve = k + 1 + length;
    put(table, curve + 1, MUL, curve, k);
    put(table, curve + 2, ADD, k, k + 2 + length);
}
