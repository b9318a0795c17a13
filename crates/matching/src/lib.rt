// A packed pattern matched with a call that stands in the work table: node by node, at one index, at one index after the other.
#![tactic(auto)]

ghost use Rattle.std.specs.Prelude.{◌≡◌, [], ◌∷◌, ◌+◌, ◌≤◌, ◌<◌, length, set};
ghost use Rattle.patterns.specs.Term.{nvar};
ghost use Rattle.patterns.specs.First.{value};
ghost use Rattle.patterns.specs.Push.{retag};
ghost use Rattle.table.specs.Places.{WORDS, NODES, BOUND, OFF};
ghost use Rattle.instances.specs.Walks.{single, Named};
ghost use Rattle.calls.specs.Standing.{Spans};
ghost use Rattle.matching.specs.Matching.{Matches, FitsAt, FirstFit, LastIndex, Tries, SearchesNodes, Searches};

use calls::Place;
use instances::Header;
use instances::fillings::forget;
use instances::nodes::Walk;
use table::{BOUND, EMPTY, FIRST, OFF};

// The files and the work table are lent as slices of their own: `begins` says why.

// The variable x takes the term at a place.
// A place is two words, since C lends the table and it holds numbers alone.
fn bind(w: &mut [u64], x: usize, p: Place)
    requires { (WORDS ≤ length w.old) × (x < 64) × (p.node ≤ NODES) }
    ensures { w.new ≡ set (set w.old (BOUND + x) (p.node + 1)) (OFF + x) p.used }
{
    w[BOUND + x] = (p.node as u64) + 1;
    w[OFF + x] = p.used;
}

// A variable takes the whole term that comes next, and met again it asks for the same term.
fn meet(w: &mut [u64], k: usize, variable: u16, p: Place) -> Option<Place>
    requires { Spans w.old k 0 × (p.node ≤ k) × (variable < 64) }
    ensures { Matches k p (nvar variable ∷ []) w.old w.new result }
{
    let x = usize::from(variable);
    let next = calls::behind(w, k, p);
    let word = w[BOUND + x];
    if word == 0 {
        bind(w, x, p);
        return Some(next);
    }
    let own = Place {
        node: (word - 1) as usize,
        used: w[OFF + x],
    };
    calls::same_term(w, k, own, p).then_some(next)
}

// A node of the pattern at index i.
fn match_node(w: &mut [u64], k: usize, header: Header, i: u16, p: Place) -> Option<Place>
    requires { Spans w.old k 0 × (p.node ≤ k) × Named header }
    ensures { Matches k p (retag (value i) (single header)) w.old w.new result }
{
    match header {
        Header::Variable { variable: x, .. } => meet(w, k, x, p),
        Header::Symbol { symbol: f, .. } => calls::under(w, k, f, p),
        Header::Power {
            symbol: s,
            a,
            b,
            ..
        } => {
            let n = table::times(a, i) + u64::from(b);
            calls::below(w, k, s, n, p)
        }
        Header::Missing => Some(p),
    }
}

// Whether the term at a bit of s matches the call at index i. The walk ends at the first node that does not.
fn fits_at(book: &[u8], s: &[u8], w: &mut [u64], k: usize, at: usize, i: u16) -> bool
    requires { Spans w.old k 0 }
    ensures { FitsAt book.now s.now k at i w.old w.new result }
{
    forget(w, BOUND);
    let mut place = Place { node: 0, used: 0 };
    for header in Walk::new(book, s, at) {
        let Some(next) = match_node(w, k, header, i, place) else {
            return false;
        };
        place = next;
    }
    true
}

// The first of n indices from i on at which the term at a bit of s matches the call.
fn first_fit(
    book: &[u8],
    s: &[u8],
    w: &mut [u64],
    k: usize,
    at: usize,
    i: u16,
    n: u16,
) -> Option<usize>
    requires { Spans w.old k 0 × (i + n ≤ 8192) }
    ensures { FirstFit book.now s.now k at i n w.old w.new result }
{
    for index in i..i + n {
        if fits_at(book, s, w, k, at, index) {
            return Some(usize::from(index));
        }
    }
    None
}

// The last index that is worth a try, the largest number of the call's powers; no call has one above 4,095.
fn last_index(w: &[u64], k: usize) -> u16
    requires { (WORDS ≤ length w.now) × (k ≤ NODES) }
    ensures { LastIndex k w.now result }
{
    calls::largest(w, k).min(4095) as u16
}

// How many indices from α on are worth a try: one where the pattern at a bit has no index.
fn tries(book: &[u8], s: &[u8], w: &[u64], k: usize, at: usize, alpha: u16) -> u16
    requires { (WORDS ≤ length w.now) × (k ≤ NODES) × (alpha ≤ 4095) }
    ensures { Tries book.now s.now k at alpha w.now result }
{
    if instances::level(book, s, at) {
        return 1;
    }
    (last_index(w, k) + 1).saturating_sub(alpha)
}

// The search for a call whose k nodes stand in the table.
fn search_nodes(
    book: &[u8],
    s: &[u8],
    w: &mut [u64],
    k: usize,
    at: usize,
    alpha: u16,
) -> Option<usize>
    requires { (WORDS ≤ length w.old) × (k ≤ NODES) × (alpha ≤ 4095) }
    ensures { SearchesNodes book.now s.now k at alpha w.old w.new result }
{
    calls::note_ends(book, w, k);
    let n = tries(book, s, w, k, at, alpha);
    first_fit(book, s, w, k, at, alpha, n)
}

// The smallest index from α on at which the pattern at a bit of the certificate becomes the call.
pub fn search(
    book: &[u8],
    certificate: &[u8],
    call: &[u8],
    w: &mut [u64],
    at: usize,
    alpha: u16,
) -> Option<usize>
    requires { (WORDS ≤ length w.old) × (alpha ≤ 4095) }
    ensures { Searches book.now certificate.now call.now at alpha w.old w.new result }
{
    forget(w, EMPTY);
    let side = instances::build(book, call, call, w, FIRST, 0, 1, 0, EMPTY)?;
    search_nodes(book, certificate, w, side.nodes, at, alpha)
}
