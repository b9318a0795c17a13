// Terms that lie packed in a file: the walk over one, and the normal form of an instance built in one pass, or held against one that was; fields
// and fillings there.
#![tactic(auto)]

pub mod fillings;
mod first;
pub mod nodes;
pub mod second;

ghost use Rattle.std.specs.Prelude.{◌≡◌, ◌+◌, ◌≤◌, ◌^◌, length};
ghost use Rattle.patterns.specs.Every.{Every};
ghost use Rattle.table.specs.Answer.{Says};
ghost use Rattle.table.specs.Places.{SIDE};
ghost use Rattle.instances.specs.Taking.{Takes};
ghost use Rattle.instances.specs.Instances.{Skips, Levels, Builds};
ghost use Rattle.instances.specs.Walks.{single, Next, Ended, LevelNode};
ghost use Rattle.instances.specs.Filled.{ComesAs, word_of};

use bits::Cursor;
use first::push_filled;
use nodes::Walk;
use table::{Held, Item};

// A field, and the bit behind it.
#[derive(Clone, Copy)]
pub struct Read {
    pub value: u16,
    pub at: usize,
}

// The header of a node, with the cursor past it: a variable, a symbol with its arity, or a power of a symbol with a and b. It is
// missing where a field runs past the end or the tag is 3.
// A missing one is a kind like the others, and no Option, since `next` and `item_of` promise what it comes to.
#[derive(Clone, Copy)]
pub enum Header {
    Variable {
        variable: u16,
        past: Cursor,
    },
    Symbol {
        symbol: u16,
        arity: u16,
        past: Cursor,
    },
    Power {
        symbol: u16,
        a: u16,
        b: u16,
        past: Cursor,
    },
    Missing,
}

// Where a walk stands: the bit, and how many terms are still to come.
#[derive(Clone, Copy)]
pub struct Stand {
    pub at: usize,
    pub pending: usize,
}

// A side of a comparison: how many nodes it has, and where the term behind it ends.
#[derive(Clone, Copy)]
pub struct Side {
    pub nodes: usize,
    pub end: usize,
}

// A term that was spelled: its word, the number of the first node that it became, and how many these are.
#[derive(Clone, Copy)]
pub struct Spelt {
    pub word: u64,
    pub from: usize,
    pub count: usize,
}

// How many nodes a side holds after a node of an instance, with the term that was spelled last, if one is remembered.
#[derive(Clone, Copy)]
pub struct Grown {
    pub nodes: usize,
    pub last: Option<Spelt>,
}

// How far a second side has come, with the term that was spelled last, if one is remembered.
#[derive(Clone, Copy)]
pub struct Passed {
    pub held: Held,
    pub last: Option<Spelt>,
}

// The field of w bits at a bit.
// What isn't there reads as 0, and ends at 0: of a file that was walked nothing is missing, and an Option would be taken apart at each call.
pub fn field(s: &[u8], w: usize, at: usize) -> Read
    requires { w ≤ 16 }
    ensures { Takes s.now w at result }
{
    let c = Cursor { at };
    match c.take(w, s) {
        Some((v, d)) => Read { value: v, at: d.at },
        None => Read { value: 0, at: 0 },
    }
}

// Where a walk stands behind a node.
pub fn next(header: Header, pending: usize) -> Stand
    requires { (1 ≤ pending) × (pending ≤ 2 ^ 32) }
    ensures { Next pending header result }
{
    match header {
        Header::Variable { past: c, .. } => Stand {
            at: c.at,
            pending: pending - 1,
        },
        Header::Symbol {
            arity: n,
            past: c,
            ..
        } => Stand {
            at: c.at,
            pending: pending - 1 + (n as usize),
        },
        Header::Power { past: c, .. } => Stand { at: c.at, pending },
        Header::Missing => Stand { at: 0, pending: 0 },
    }
}

// Whether a walk is over: no term is to come, or no node is allowed.
pub fn is_over(p: Stand, left: usize) -> bool
    ensures { Says (Ended left p.pending) result }
{
    left == 0 || p.pending == 0
}

// Where the term at a bit ends.
pub fn skip(book: &[u8], s: &[u8], at: usize) -> usize
    ensures { Skips book.now s.now at result }
{
    let mut walk = Walk::new(book, s, at);
    while let Some(_) = walk.next() {}
    walk.stand.at
}

// Whether a = 0 in a node.
fn level_node(header: Header) -> bool
    ensures { Says (Every LevelNode (single header)) result }
{
    match header {
        Header::Variable { .. } => true,
        Header::Symbol { .. } => true,
        Header::Power { a, .. } => a == 0,
        Header::Missing => true,
    }
}

// Whether the term at a bit is the same at every index: a = 0 in each of its powers.
pub fn level(book: &[u8], s: &[u8], at: usize) -> bool
    ensures { Levels book.now s.now at result }
{
    for header in Walk::new(book, s, at) {
        if !level_node(header) {
            return false;
        }
    }
    true
}

// A node as it comes, reindexed by (i, j). A missing one comes as a power that counts nothing.
fn item_of(header: Header, i: u16, j: u16) -> Item
    ensures { ComesAs i j header result }
{
    match header {
        Header::Variable { variable: x, .. } => Item::Plain(3 * (x as u64)),
        Header::Symbol { symbol: f, .. } => Item::Plain(3 * (f as u64) + 1),
        Header::Power {
            symbol: s,
            a,
            b,
            ..
        } => table::reindexed(s, a, b, i, j),
        Header::Missing => Item::Power {
            symbol: 0,
            a: 0,
            b: 0,
        },
    }
}

// The word at `fills` for a node: 0, or one more than the place of its term.
// No Option: the words that are compared with it lie in the table.
fn word_of(w: &[u64], fills: usize, header: Header) -> u64
    requires { fills + 64 ≤ length w.now }
    ensures { result ≡ word_of w.now fills header }
{
    match header {
        Header::Variable { variable: x, .. } => {
            if x < 64 {
                return w[fills + (x as usize)];
            }
            0
        }
        Header::Symbol { .. } => 0,
        Header::Power { .. } => 0,
        Header::Missing => 0,
    }
}

// The instance of the term at a bit of s, reindexed by (i, j) and filled by terms of the certificate as the words at `fills` tell: the
// nodes of its normal form on the side at `base`, unless they are more than 1,024. The numbers of an index, and a side's place and how many
// nodes it has, are parameters of their own: a struct of two numbers would be made at each call and taken apart in each clause.
pub fn build(
    book: &[u8],
    s: &[u8],
    certificate: &[u8],
    w: &mut [u64],
    base: usize,
    at: usize,
    i: u16,
    j: u16,
    fills: usize,
) -> Option<Side>
    requires { (base + SIDE ≤ length w.old) × (fills + 64 ≤ base) }
    ensures { Builds book.now s.now certificate.now base at i j fills w.old w.new result }
{
    let mut grown = Grown {
        nodes: 0,
        last: None,
    };
    let mut walk = Walk::new(book, s, at);
    while let Some(header) = walk.next() {
        grown = push_filled(book, certificate, w, base, grown, header, i, j, fills)?;
    }
    Some(Side {
        nodes: grown.nodes,
        end: walk.stand.at,
    })
}
