// The classes of expanded nodes, found by an index in a lent table instead of a scan (document 01, "What the step checker passes").
//
// The work table for N nodes: words 0..N are the classes, so `work[node]` is a node's class; from N + 4 * node on stand a node's two keys and its two cells in a
// tree on the bits of keys, so that a look at a node reads one place; from 5 * N on are the cells where the walks begin, N / 16 + 1 for each code (specs/Start.antt).
// What lies behind 7 * N + 32 belongs to the caller. A walk begins among few nodes, and looks at no more than 65 cells whatever the block (specs/Depth.antt).
// A tree of places in a lent table, and no map or Box: 01's rule, no heap and fixed memory. N goes beside the nodes: each place in the table is found by it, and
// from the nodes' length it would be divided out anew at each look.
#![tactic(auto)]

ghost use Rattle.std.specs.Prelude.{◌≡◌, ℕ, ◌+◌, ◌*◌, ◌≤◌, ◌<◌, length, get_or};
ghost use Rattle.block.specs.Block.{code};
ghost use Rattle.block.specs.Limits.{most_nodes};
ghost use Rattle.classes.specs.Classes.{is_operand, key_of, first_key, second_key, find};
ghost use Rattle.classes.specs.Start.{index_length, bucket_of, root};
ghost use Rattle.classes.specs.Cells.{Walk};
ghost use Rattle.classes.specs.Index.{Fresh, Filled, Indexed, Ready, keys_at};

// Whether the first word of a node of this code is an operand. By the code's number, not its kind: this is asked for every node. One
// range of codes, as is the second word's below: one function for both would be a match of these two lines.
#[tactic(auto, using(crate::specs::ClassLaws::first_operand))]
fn first_is_operand(code: u32) -> bool
    ensures { result ≡ is_operand code 0 }
{
    (5..=16).contains(&code)
}

// Whether the second word is.
#[tactic(auto, using(crate::specs::ClassLaws::second_operand))]
fn second_is_operand(code: u32) -> bool
    ensures { result ≡ is_operand code 1 }
{
    (5..=11).contains(&code)
}

// An operand's class, or the word itself. As expand's `mapped_operand`, of the classes: its promise is `key_of`, and one line is no plainer as a call of another crate.
#[tactic(auto, unfolding(crate::specs::Classes::key_of))]
fn key(work: &[u32], operand: bool, word: u32) -> u32
    ensures { result ≡ key_of operand work.now word }
{
    if !operand {
        return word;
    }
    work.get(word as usize).copied().unwrap_or(0)
}

// What a class is found by: a code and two keys, each an operand's class or a word that is no operand.
#[derive(Clone, Copy)]
pub struct Keys {
    pub code: u32,
    pub first: u32,
    pub second: u32,
    ghost listed: { code < 32 },
}

// The keys of a node, its operands' classes read from the work table.
#[tactic(auto, unfolding(crate::specs::Classes::first_key, crate::specs::Classes::second_key))]
fn keys_of(nodes: &[u32], work: &[u32], node: usize) -> Keys
    requires { (3 * node + 2 < length nodes.now) × (code nodes.now node < 32) }
    ensures code { result.code ≡ code nodes.now node }
    ensures first { result.first ≡ first_key nodes.now work.now node }
    ensures second { result.second ≡ second_key nodes.now work.now node }
{
    let code = nodes[3 * node];
    Keys {
        code,
        first: key(work, first_is_operand(code), nodes[3 * node + 1]),
        second: key(work, second_is_operand(code), nodes[3 * node + 2]),
    }
}

// Which of a code's start cells is that of a word: near words have near cells, and a word past them is spread.
#[tactic(auto, unfolding(crate::specs::Start::bucket_of))]
fn bucket_of(count: usize, word: u32) -> usize
    ensures { result ≡ bucket_of count word }
{
    let buckets = count / 16 + 1;
    let near = word as usize / 16;
    if near < buckets {
        return near;
    }
    word.wrapping_mul(2654435769) as usize / 65536 % buckets
}

// The cell where the walk for a code and two keys begins: the larger key is of two operands the later.
fn root(count: usize, keys: Keys) -> usize
    requires { count ≤ most_nodes }
    ensures { result ≡ root count keys.code keys.first keys.second }
{
    let buckets = count / 16 + 1;
    let before = (keys.code as usize) * buckets;
    let bucket = bucket_of(count, keys.first.max(keys.second));
    5 * count + before + bucket
}

// Whether the two words from a place on are these keys.
fn has_keys(work: &[u32], at: usize, keys: Keys) -> bool
    requires { at + 1 < length work.now }
    ensures { result ≡ keys_at work.now at keys.first keys.second }
{
    work[at] == keys.first && work[at + 1] == keys.second
}

// The cell where the walk for a key stops: empty, or with the node that has the key.
#[tactic(auto, using(crate::specs::Index::going_node))]
fn find_cell(nodes: &[u32], work: &[u32], count: usize, keys: Keys) -> usize
    requires { Ready count nodes.now work.now }
    ensures { Walk nodes.now count work.now keys.code keys.first keys.second result }
{
    let mut cell = root(count, keys);
    let mut next = keys.first;
    let mut after = keys.second;
    let mut word = work[cell];
    // A walk down the tree, which an empty cell or the key ends (`Walk`): it counts nothing, so no range or iterator has its turns.
    while 0 < word {
        let node = (word - 1) as usize;
        let at = count + node * 4;
        if has_keys(work, at, keys) {
            return cell;
        }
        cell = at + 2 + (next % 2) as usize;
        let rest = next / 2;
        next = after;
        after = rest;
        word = work[cell];
    }
    cell
}

// The class, and one, of the nodes that have a code and two keys; 0 where there is none: a word and no Option, as `find` and the table have it.
pub fn lookup(nodes: &[u32], work: &[u32], count: usize, keys: Keys) -> u32
    requires { Indexed count nodes.now work.now }
    ensures { result ≡ find nodes.now count keys.code keys.first keys.second }
{
    let cell = find_cell(nodes, work, count, keys);
    work[cell]
}

// A node goes in, after those before it: into the empty cell where its walk stops, or as one more of the class that it finds there.
#[tactic(auto, using(crate::specs::Index::filled_ready, crate::specs::Index::code_small, crate::specs::Index::walk_in))]
fn insert(nodes: &[u32], work: &mut [u32], count: usize, node: usize)
    requires { Filled count node nodes.now work.old × (node < count) }
    ensures { Filled count (node + 1) nodes.now work.new
        × ((i : ℕ) → index_length count ≤ i → get_or work.new i 0 ≡ get_or work.old i 0) }
{
    let keys = keys_of(nodes, work, node);
    let cell = find_cell(nodes, work, count, keys);
    let word = work[cell];
    if word == 0 {
        let at = count + node * 4;
        work[at] = keys.first;
        work[at + 1] = keys.second;
        work[cell] = node as u32 + 1;
        work[node] = node as u32;
        return;
    }
    work[node] = word - 1;
}

// All nodes go in.
fn insert_all(nodes: &[u32], work: &mut [u32], count: usize)
    requires { Filled count 0 nodes.now work.old }
    ensures { Indexed count nodes.now work.new
        × ((i : ℕ) → index_length count ≤ i → get_or work.new i 0 ≡ get_or work.old i 0) }
{
    for node in 0..count {
        insert(nodes, work, count, node);
    }
}

// The index of all nodes, in a table that may hold anything before; 0 in every word behind it.
pub fn prepare(nodes: &[u32], work: &mut [u32], count: usize)
    requires { Fresh count nodes.now work.old }
    ensures { Indexed count nodes.now work.new
        × ((i : ℕ) → index_length count ≤ i → get_or work.new i 0 ≡ 0) }
{
    tables::zero(work);
    insert_all(nodes, work, count);
}
