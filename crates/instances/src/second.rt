// The second side of a comparison: an instance of a packed term, walked against the nodes of the first. Where the term
// that was spelled last comes again, the stored nodes are compared with those of its earlier place.
// Its functions are no twins of those in `first`: these write nodes and can run out of room, those only read, count on behind a difference, and carry
// a power that waits. A trait over both would state every clause twice, once as pushed and once as held.
ghost use Rattle.std.specs.Prelude.{◌+◌, ◌-◌, ◌≤◌, ◌^◌, length};
ghost use mathlib.Core.List.{flat_map};
ghost use Rattle.table.specs.Places.{NODES};
ghost use Rattle.table.specs.Sides.{Room};
ghost use Rattle.table.specs.Answer.{Assures};
ghost use Rattle.table.specs.Second.{weight, Came};
ghost use Rattle.instances.specs.Instances.{Against};
ghost use Rattle.instances.specs.Walks.{single, walked};
ghost use Rattle.instances.specs.Filled.{filled};
ghost use Rattle.instances.specs.Repeats.{Remembers, Tracked, Repeated, Onward, NotesHeld, Passes};

use crate::nodes::Walk;
use crate::{Header, Passed, Spelt, item_of, word_of};
use table::{Held, NODES, Outcome};

// The nodes of the term at a bit, just as they stand.
fn hold_term(book: &[u8], s: &[u8], w: &[u64], base: usize, from: Held, at: usize) -> Held
    requires room { Room base from.parts w.now }
    requires nodes_bound { (from.nodes ≤ NODES) × (weight from.power ≤ 2 ^ 60) }
    ensures { Came w.now base (walked book.now s.now at).met from result }
{
    let mut h = from;
    for header in Walk::new(book, s, at) {
        h = table::second::hold(w, base, h, item_of(header, 1, 0));
    }
    h
}

// Whether a term that was spelled comes again, where no power waits, and the stored nodes from the next on are those that it became.
fn is_repeated(w: &[u64], base: usize, h: Held, word: u64, last: Spelt) -> bool
    requires room { Room base h.parts w.now }
    requires nodes_bound { (h.nodes ≤ NODES) × (last.from + last.count ≤ NODES) }
    ensures { Assures (Repeated w.now base h word last) result }
{
    if word != last.word || h.power.is_some() || h.nodes + last.count > h.parts {
        return false;
    }
    table::second::again(w, base, h.nodes, last.from, last.count)
}

// The term of a word that brought a second side from one state to another, if no power waits on either end and no node differs; else the one before it.
fn remembered(before: Held, after: Held, word: u64, last: Option<Spelt>) -> Option<Spelt>
    requires { Onward before after }
    ensures { NotesHeld before after word last result }
{
    if before.power.is_none() && after.power.is_none() && after.nodes <= after.parts {
        return Some(Spelt {
            word,
            from: before.nodes,
            count: after.nodes - before.nodes,
        });
    }
    last
}

// The term of a word, just as it stands: compared if it was spelled last.
fn hold_listed(
    book: &[u8],
    certificate: &[u8],
    w: &[u64],
    base: usize,
    from: Passed,
    word: u64,
) -> Passed
    requires room { Room base from.held.parts w.now }
    requires nodes_bound { (from.held.nodes ≤ NODES) × (weight from.held.power ≤ 2 ^ 60) × (1 ≤ word) × Remembers book.now certificate.now w.now base NODES from.last × Tracked w.now base from.held }
    ensures { Passes book.now certificate.now w.now base (walked book.now certificate.now (word - 1)).met from.held result }
{
    let Passed { held: h, last } = from;
    if let Some(s) = from.last
        && is_repeated(w, base, h, word, s)
    {
        return Passed {
            held: Held {
                nodes: h.nodes + s.count,
                ..h
            },
            last,
        };
    }
    let k = hold_term(book, certificate, w, base, h, (word - 1) as usize);
    Passed {
        held: k,
        last: remembered(h, k, word, last),
    }
}

// A node of an instance: a listed variable's term as it stands, any other node reindexed.
fn hold_filled(
    book: &[u8],
    certificate: &[u8],
    w: &[u64],
    base: usize,
    from: Passed,
    header: Header,
    i: u16,
    j: u16,
    fills: usize,
) -> Passed
    requires room { Room base from.held.parts w.now }
    requires nodes_bound { (from.held.nodes ≤ NODES) × (weight from.held.power ≤ 2 ^ 60) × (fills + 64 ≤ length w.now) × Remembers book.now certificate.now w.now base NODES from.last × Tracked w.now base from.held }
    ensures { Passes book.now certificate.now w.now base (flat_map (filled book.now certificate.now w.now fills i j) (single header)) from.held result }
{
    let word = word_of(w, fills, header);
    if word == 0 {
        return Passed {
            held: table::second::hold(w, base, from.held, item_of(header, i, j)),
            ..from
        };
    }
    hold_listed(book, certificate, w, base, from, word)
}

// The instance of the term at a bit of s, reindexed by (i, j) and filled by terms of the certificate as the words at `fills` tell, held against
// the n nodes that are stored at `base`.
pub fn hold_instance(
    book: &[u8],
    s: &[u8],
    certificate: &[u8],
    w: &[u64],
    base: usize,
    n: usize,
    at: usize,
    i: u16,
    j: u16,
    fills: usize,
) -> Outcome
    requires room { Room base n w.now }
    requires fills_in_bounds { fills + 64 ≤ length w.now }
    ensures { Against book.now s.now certificate.now base n at i j fills w.now result }
{
    let mut passed = Passed {
        held: Held {
            parts: n,
            ..Held::default()
        },
        last: None,
    };
    for header in Walk::new(book, s, at) {
        passed = hold_filled(book, certificate, w, base, passed, header, i, j, fills);
        if passed.held.nodes > NODES {
            return Outcome::Full;
        }
    }
    table::second::outcome(w, base, n, passed.held)
}
