// The first side of a comparison: the nodes of an instance, pushed. The term that was spelled last is copied where it comes again.
ghost use Rattle.std.specs.Prelude.{◌≡◌, true, ◌+◌, ◌-◌, ◌≤◌, ◌^◌, length};
ghost use mathlib.Core.List.{flat_map};
ghost use Rattle.table.specs.Answer.{Assures};
ghost use Rattle.table.specs.Nodes.{stack, load};
ghost use Rattle.table.specs.Sides.{Room, Pushes};
ghost use Rattle.instances.specs.Walks.{single, walked};
ghost use Rattle.instances.specs.Filled.{filled};
ghost use Rattle.instances.specs.Repeats.{Remembers, Notes, Grows};

use crate::nodes::Walk;
use crate::{Grown, Header, Spelt, item_of, word_of};

// The nodes of the term at a bit, just as they stand.
fn spell(
    book: &[u8],
    s: &[u8],
    w: &mut [u64],
    base: usize,
    count: usize,
    at: usize,
) -> Option<usize>
    requires room { Room base count w.old }
    requires count_bound { load (stack w.old base count) ≤ 2 ^ 60 }
    ensures { Pushes base count (walked book.now s.now at).met w.old w.new result }
{
    let mut n = count;
    for header in Walk::new(book, s, at) {
        n = table::push(w, base, n, item_of(header, 1, 0))?;
    }
    Some(n)
}

// Whether the term that was spelled last comes again, where nothing merges with it.
fn is_repeated(closed: bool, word: u64, last: u64) -> bool
    ensures { Assures ((closed ≡ true) × (word ≡ last)) result }
{
    closed && word == last
}

// The term of a word that took the side from n nodes to k, if nothing merges with it on either end; else the one before it.
fn remembered(
    w: &[u64],
    base: usize,
    n: usize,
    k: usize,
    word: u64,
    closed: bool,
    last: Option<Spelt>,
) -> Option<Spelt>
    requires room { Room base k w.now }
    requires n_le_k { n ≤ k }
    ensures { Notes base n k word closed last w.now result }
{
    if closed && table::is_closed(w, base, k) {
        return Some(Spelt {
            word,
            from: n,
            count: k - n,
        });
    }
    last
}

// The term of a word, just as it stands: copied if it was spelled last.
fn push_listed(
    book: &[u8],
    certificate: &[u8],
    w: &mut [u64],
    base: usize,
    from: Grown,
    word: u64,
) -> Option<Grown>
    requires room { Room base from.nodes w.old }
    requires n_bound { (load (stack w.old base from.nodes) ≤ 2 ^ 60) × (1 ≤ word) × Remembers book.now certificate.now w.old base from.nodes from.last }
    ensures { Grows book.now certificate.now base from.nodes (walked book.now certificate.now (word - 1)).met w.old w.new result }
{
    let Grown { nodes: n, last } = from;
    let closed = table::is_closed(w, base, n);
    if let Some(s) = from.last
        && is_repeated(closed, word, s.word)
    {
        let k = table::copy(w, base, n, s.from, s.count)?;
        return Some(Grown { nodes: k, last });
    }
    let k = spell(book, certificate, w, base, n, (word - 1) as usize)?;
    Some(Grown {
        nodes: k,
        last: remembered(w, base, n, k, word, closed, last),
    })
}

// A node of an instance: a listed variable's term as it stands, any other node reindexed.
pub fn push_filled(
    book: &[u8],
    certificate: &[u8],
    w: &mut [u64],
    base: usize,
    from: Grown,
    header: Header,
    i: u16,
    j: u16,
    fills: usize,
) -> Option<Grown>
    requires room { Room base from.nodes w.old }
    requires n_bound { (load (stack w.old base from.nodes) ≤ 2 ^ 60) × (fills + 64 ≤ length w.old) × Remembers book.now certificate.now w.old base from.nodes from.last }
    ensures { Grows book.now certificate.now base from.nodes (flat_map (filled book.now certificate.now w.old fills i j) (single header)) w.old w.new result }
{
    let word = word_of(w, fills, header);
    if word == 0 {
        let k = table::push(w, base, from.nodes, item_of(header, i, j))?;
        return Some(Grown { nodes: k, ..from });
    }
    push_listed(book, certificate, w, base, from, word)
}
