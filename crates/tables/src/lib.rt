// Zeroing and copying tables of words. The laws on lists, parts and loops that every other crate cites are in specs/.
#![tactic(auto)]

ghost use Rattle.std.specs.Prelude.{◌≡◌, ◌-◌, length};
ghost use Rattle.tables.specs.Zeros.{zeros, zeroed, copied};

// 0 in the words from `from` up to, not including, `to`, as far as the table has them; the rest as it was.
pub fn zero_part(table: &mut [u32], from: usize, to: usize)
    ensures { table.new ≡ zeroed from (to - from) table.old }
{
    let end = to.min(table.len());
    if from < end {
        table[from..end].fill(0);
    }
}

// Every word 0: the part that is the whole table, by the one function, whose edits so hold of both.
pub fn zero(table: &mut [u32])
    ensures { table.new ≡ zeros (length table.old) }
{
    zero_part(table, 0, table.len());
}

// The words of `from` over the first of `to`, as many as both have; the rest of `to` as it was.
// The lengths are compared once, before the loop: a test inside it would halve the speed. A loop, of which the edit that reads the first word is a slip.
pub fn copy(from: &[u32], to: &mut [u32])
    ensures { to.new ≡ copied from.now to.old }
{
    let count = from.len().min(to.len());
    for i in 0..count {
        to[i] = from[i];
    }
}
