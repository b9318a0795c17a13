// A call that stands in the work table: where each of its terms ends, and the ways to go on from a place in it.
#![tactic(auto)]

ghost use Rattle.std.specs.Prelude.{◌≡◌, [], ◌∷◌, ◌+◌, ◌*◌, ◌-◌, ◌≤◌, ◌<◌, length};
ghost use Rattle.instances.specs.Lying.{arities};
ghost use Rattle.table.specs.Places.{WORDS, NODES, FIRST};
ghost use Rattle.table.specs.Nodes.{node_at, side};
ghost use Rattle.table.specs.Answer.{Says};
ghost use Rattle.covering.specs.Left.{under, below};
ghost use Rattle.covering.specs.Search.{largest};
ghost use Rattle.calls.specs.Standing.{less, lessened, counted_node, nodes_from, left_at, Spans};
ghost use Rattle.calls.specs.Moving.{Follows, Passes, NotesEnds, Term, SameTerms, Behind, Goes};

use table::{ENDS, FIRST};

// A place in a call: a node, and how many applications of its power are used up.
#[derive(Clone, Copy)]
pub struct Place {
    pub node: usize,
    pub used: u64,
}

impl Place {
    // The place of a node of which nothing is used up.
    fn at(node: usize) -> Place
        ensures { result ≡ record { node = node; used = 0 } }
    {
        Place { node, used: 0 }
    }
}

// ---- where each term ends

// The arity of a symbol, 16 where there is no such symbol.
// No Option: `arities` has that number.
#[tactic(auto, using(crate::proofs::Arities::large_symbol))]
fn arity_of(book: &[u8], f: u64) -> usize
    ensures { result ≡ arities book.now f }
{
    let Ok(symbol) = u8::try_from(f) else {
        return 16;
    };
    usize::from(terms::arity_of(book, u16::from(symbol)))
}

// How many terms follow a node, by its first word.
fn followers(book: &[u8], code: u64) -> usize
    ensures { Follows (arities book.now) code result }
{
    match code % 3 {
        0 => 0,
        1 => arity_of(book, code / 3),
        _ => 1,
    }
}

// The node behind n terms from node j on, if each of these knows where it ends.
fn pass(w: &[u64], k: usize, j: usize, n: usize) -> usize
    requires { Spans w.now k j × (j ≤ k) }
    ensures { Passes w.now k j n result }
{
    let mut at = j;
    for _ in 0..n {
        if at == k {
            return k;
        }
        at = w[ENDS + at] as usize;
    }
    at
}

// Where the term of each of the k nodes ends, noted from the last node back to the first.
pub fn note_ends(book: &[u8], w: &mut [u64], k: usize)
    requires { (WORDS ≤ length w.old) × (k ≤ NODES) }
    ensures { NotesEnds (arities book.now) k w.old w.new }
{
    for j in (0..k).rev() {
        let n = followers(book, w[FIRST + 3 * j]);
        let end = pass(w, k, j + 1, n);
        w[ENDS + j] = end as u64;
    }
}

// ---- the largest number

// The number of a node, 0 if it is no power.
#[tactic(auto, using(crate::proofs::Numbers::largest_power, crate::proofs::Numbers::largest_other))]
fn number_of(w: &[u64], j: usize) -> u64
    requires { (WORDS ≤ length w.now) × (j < NODES) }
    ensures { result ≡ largest (node_at w.now (FIRST + 3 * j) ∷ []) }
{
    let at = FIRST + 3 * j;
    if w[at] % 3 == 2 { w[at + 2] } else { 0 }
}

// The largest number of the powers among k nodes.
#[tactic(auto, using(crate::proofs::Numbers::largest_none, crate::proofs::Numbers::largest_more))]
pub fn largest(w: &[u64], k: usize) -> u64
    requires { (WORDS ≤ length w.now) × (k ≤ NODES) }
    ensures { result ≡ largest (side w.now FIRST k) }
{
    let mut most = 0;
    for j in 0..k {
        most = number_of(w, j).max(most);
    }
    most
}

// ---- the same term at two places

// Whether what is left of two nodes is the same.
fn alike(w: &[u64], p: Place, q: Place) -> bool
    requires { (WORDS ≤ length w.now) × (p.node < NODES) × (q.node < NODES) }
    ensures { Says (less p.used (counted_node w.now p.node) ≡ less q.used (counted_node w.now q.node)) result }
{
    let a = FIRST + 3 * p.node;
    let b = FIRST + 3 * q.node;
    w[a] == w[b]
        && (w[a] % 3 != 2 || w[a + 2].saturating_sub(p.used) == w[b + 2].saturating_sub(q.used))
}

// Whether n nodes are the same from two places on.
fn same_nodes(w: &[u64], p: Place, q: Place, n: usize) -> bool
    requires { (WORDS ≤ length w.now) × (p.node + n ≤ NODES) × (q.node + n ≤ NODES) }
    ensures { Says (lessened p.used (nodes_from w.now p.node n) ≡ lessened q.used (nodes_from w.now q.node n)) result }
{
    let mut a = p;
    let mut b = q;
    for _ in 0..n {
        if !alike(w, a, b) {
            return false;
        }
        a = Place::at(a.node + 1);
        b = Place::at(b.node + 1);
    }
    true
}

// How many nodes the term of a node has.
fn nodes_of(w: &[u64], k: usize, j: usize) -> usize
    requires { Spans w.now k 0 × (j < k) }
    ensures { Term w.now k j result }
{
    w[ENDS + j] as usize - j
}

// Whether the terms at two places are the same.
pub fn same_term(w: &[u64], k: usize, p: Place, q: Place) -> bool
    requires { Spans w.now k 0 }
    ensures { SameTerms w.now k p q result }
{
    if p.node >= k {
        return q.node >= k;
    }
    if q.node >= k {
        return false;
    }
    let n = nodes_of(w, k, p.node);
    nodes_of(w, k, q.node) == n && same_nodes(w, p, q, n)
}

// ---- the ways to go on

// The table and k stay two arguments. As one struct with the invariant `Spans`, which was tried, they made the contracts longer
// (`self.entry.w.now self.entry.k`), and `matching`, which writes into the same table, would make the struct anew for each move.

// Behind the term at a place.
pub fn behind(w: &[u64], k: usize, p: Place) -> Place
    requires { Spans w.now k 0 × (p.node ≤ k) }
    ensures { Behind w.now k p result }
{
    if p.node == k {
        return p;
    }
    Place::at(w[ENDS + p.node] as usize)
}

// Behind the symbol f, if that comes next.
pub fn under(w: &[u64], k: usize, f: u16, p: Place) -> Option<Place>
    requires { Spans w.now k 0 × (p.node ≤ k) }
    ensures { Goes w.now k (under f (left_at w.now k p)) result }
{
    if p.node == k {
        return None;
    }
    if w[FIRST + 3 * p.node] != 3 * u64::from(f) + 1 {
        return None;
    }
    Some(Place::at(p.node + 1))
}

// Behind n applications of s, if so many come next.
pub fn below(w: &[u64], k: usize, s: u16, n: u64, p: Place) -> Option<Place>
    requires { Spans w.now k 0 × (p.node ≤ k) }
    ensures { Goes w.now k (below s n (left_at w.now k p)) result }
{
    if n == 0 {
        return Some(p);
    }
    if p.node == k {
        return None;
    }
    let at = FIRST + 3 * p.node;
    if w[at] != 3 * u64::from(s) + 2 {
        return None;
    }
    let left = w[at + 2].saturating_sub(p.used);
    if n > left {
        return None;
    }
    if n == left {
        return Some(Place::at(p.node + 1));
    }
    Some(Place {
        node: p.node,
        used: p.used + n,
    })
}
