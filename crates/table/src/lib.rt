// The judge's work table: the normal form of a comparison's first side, built node by node in 3,072 words; the second held against it; the table cleared.
#![tactic(auto)]

pub mod second;

ghost use Rattle.std.specs.Prelude.{◌≡◌, [], ◌∷◌, ◌++◌, ◌+◌, ◌*◌, ◌<◌, ◌≤◌, ◌^◌, length, replicate};
ghost use Rattle.patterns.specs.Term.{npow};
ghost use Rattle.table.specs.Nodes.{node_of, with_node, stack, load, top_code, Words};
ghost use Rattle.table.specs.Sides.{node_told, Coded, Reindexed, Room, Became, Pushes};
ghost use Rattle.table.specs.Answer.{Assures};
ghost use Rattle.table.specs.Repeats.{Closed, part};

// The places of the table: where each rule begins, where each line's left begins, and where its right does; the words of a filling that
// stays empty, of the line's own filling, of a use's; and the first side of a comparison. The second side has no place.
pub const RULES: usize = 0;

pub const LEFTS: usize = 256;

pub const RIGHTS: usize = 512;

pub const EMPTY: usize = 768;

pub const OWN: usize = 832;

pub const USED: usize = 896;

pub const FIRST: usize = 1024;

// A search for an index has the nodes of its call at FIRST, and behind them: where the term of each node ends; for each variable of a
// pattern the call's node where its term begins, and how much of that node is used up.
pub const ENDS: usize = 4096;

pub const BOUND: usize = 5120;

pub const OFF: usize = 5184;

// How many words the table has, and how many nodes a side.
pub const WORDS: usize = 8192;

pub const NODES: usize = 1024;

// A node that comes: a variable or a symbol with arguments, by the word that tells it; or a power of a symbol with its numbers a and b.
#[derive(Clone, Copy)]
pub enum Item {
    Plain(u64),
    Power { symbol: u16, a: u64, b: u64 },
}

// The three words of a stored node: its kind and its name, and the numbers a and b of a power.
// The kind is the first word's remainder by 3, here and wherever a node lies in the table, which C lends and which holds numbers alone.
#[derive(Clone, Copy, Default, PartialEq, Eq)]
pub struct Triple {
    pub code: u64,
    pub a: u64,
    pub b: u64,
}

// How far a second side has come: how many nodes are settled; the number of the first of them that differs from the stored node of the same
// number, or how many are stored; and the words of the power that waits, if one does.
#[derive(Clone, Copy, Default)]
pub struct Held {
    pub nodes: usize,
    pub parts: usize,
    pub power: Option<Triple>,
}

// What a second side amounts to: the nodes that are stored, others, or more than 1,024.
#[derive(Clone, Copy)]
pub enum Outcome {
    Same,
    Other,
    Full,
}

// A product of two small numbers.
pub fn times(a: u16, i: u16) -> u64
    ensures { (result ≡ a * i) × (result < 2 ^ 32) }
{
    (a as u64) * (i as u64)
}

// A power of s with the numbers a and b, reindexed by (i, j).
pub fn reindexed(s: u16, a: u16, b: u16, i: u16, j: u16) -> Item
    ensures { Reindexed s a b i j result }
{
    Item::Power {
        symbol: s,
        a: times(a, i),
        b: times(a, j) + (b as u64),
    }
}

// The three words of the node at a place.
fn stored(w: &[u64], p: usize) -> Triple
    requires { p + 3 ≤ length w.now }
    ensures { Words w.now p result.code result.a result.b }
{
    Triple {
        code: w[p],
        a: w[p + 1],
        b: w[p + 2],
    }
}

// The three words of a node.
fn write_node(w: &mut [u64], p: usize, node: Triple)
    requires { p + 3 ≤ length w.old }
    ensures { w.new ≡ with_node w.old p node.code node.a node.b }
{
    w[p] = node.code;
    w[p + 1] = node.a;
    w[p + 2] = node.b;
}

// One node more, stored behind n others. The answer of this push, and of every other, is how many nodes the side holds then, or nothing where it
// would have to hold more than 1,024.
fn store(w: &mut [u64], base: usize, n: usize, node: Triple) -> Option<usize>
    requires { Room base n w.old }
    ensures { Became base (node_of node.code node.a node.b ∷ stack w.old base n) w.old w.new result }
{
    if n == NODES {
        return None;
    }
    write_node(w, base + 3 * n, node);
    Some(n + 1)
}

// The first word of the last node, 0 where there is none.
fn top_code(w: &[u64], base: usize, n: usize) -> u64
    requires { Room base n w.now }
    ensures { result ≡ top_code w.now base n }
{
    if n == 0 {
        return 0;
    }
    w[base + 3 * (n - 1)]
}

// A power: dropped if it counts nothing, added to the last node if that is a power of the same symbol.
fn push_power(w: &mut [u64], base: usize, n: usize, s: u16, a: u64, b: u64) -> Option<usize>
    requires room { Room base n w.old }
    requires n_bound { a + b + load (stack w.old base n) < 2 ^ 64 }
    ensures { Pushes base n (npow s (a, b) ∷ []) w.old w.new result }
{
    if a + b == 0 {
        return Some(n);
    }
    let code = 3 * (s as u64) + 2;
    if top_code(w, base, n) == code {
        let at = base + 3 * (n - 1);
        let more_a = w[at + 1] + a;
        let more_b = w[at + 2] + b;
        write_node(
            w,
            at,
            Triple {
                code,
                a: more_a,
                b: more_b,
            },
        );
        return Some(n);
    }
    store(w, base, n, Triple { code, a, b })
}

// A node pushed on a side that holds n.
pub fn push(w: &mut [u64], base: usize, n: usize, node: Item) -> Option<usize>
    requires room { Room base n w.old }
    requires n_bound { (load (node_told node ∷ stack w.old base n) < 2 ^ 64) × Coded node }
    ensures { Pushes base n (node_told node ∷ []) w.old w.new result }
{
    match node {
        Item::Plain(code) => store(w, base, n, Triple { code, a: 0, b: 0 }),
        Item::Power { symbol: s, a, b } => push_power(w, base, n, s, a, b),
    }
}

// Whether nothing merges with the last of n nodes: it is no power, or there is none.
#[tactic(auto, using(crate::proofs::Repeats::closed_plain))]
pub fn is_closed(w: &[u64], base: usize, n: usize) -> bool
    requires { Room base n w.now }
    ensures { Assures (Closed (stack w.now base n)) result }
{
    top_code(w, base, n) % 3 != 2
}

// The `count` nodes from number `from` on once more, behind n others.
pub fn copy(w: &mut [u64], base: usize, n: usize, from: usize, count: usize) -> Option<usize>
    requires room { Room base n w.old }
    requires count_bound { from + count ≤ n }
    ensures { Became base (part w.old base from count ++ stack w.old base n) w.old w.new result }
{
    if n + count > NODES {
        return None;
    }
    for k in 0..count {
        write_node(w, base + 3 * (n + k), stored(w, base + 3 * (from + k)));
    }
    Some(n + count)
}

// Every word 0.
pub fn clear(w: &mut [u64])
    ensures { w.new ≡ replicate (length w.old) 0 }
{
    w.fill(0);
}
