// Two sides of a comparison: the first is built, and the second held against it.
ghost use Rattle.std.specs.Prelude.{◌≡◌, ◌≤◌, length};
ghost use Rattle.table.specs.Places.{WORDS, USED, FIRST};
ghost use Rattle.table.specs.Sides.{Room};
ghost use Rattle.comparing.specs.Subjects.{fills_of, Sided, AmountsEmpty, Seconded, Compares};
ghost use Rattle.comparing.specs.Asked.{Equals};

use crate::{Compared, Fault, Filled, Found, Subject};
use instances::{Side, second};
use table::{EMPTY, FIRST, OWN, Outcome, USED};

// Where the words of a filling stand: a place in the table, and no other name of the same value, so no `From`.
fn fills_of(filled: Filled) -> usize
    ensures { (result ≡ fills_of filled) × (result ≤ USED) }
{
    match filled {
        Filled::Bare => EMPTY,
        Filled::Used => USED,
    }
}

// The first side of a comparison, unless it has more than 1,024 nodes.
fn first_side(book: &[u8], certificate: &[u8], w: &mut [u64], a: Subject) -> Option<Side>
    requires { WORDS ≤ length w.old }
    ensures { Sided book.now certificate.now a w.old w.new result }
{
    match a {
        Subject::Empty => Some(Side { nodes: 0, end: 0 }),
        Subject::Call(at) => instances::build(book, book, certificate, w, FIRST, at, 1, 0, OWN),
        Subject::Claimed { at, i, j, filled } => instances::build(
            book,
            certificate,
            certificate,
            w,
            FIRST,
            at,
            i,
            j,
            fills_of(filled),
        ),
    }
}

// The empty mark as second side, where the first has n nodes.
fn no_side(n: usize) -> Outcome
    ensures { AmountsEmpty n result }
{
    if n == 0 {
        Outcome::Same
    } else {
        Outcome::Other
    }
}

// The second side of a comparison, where the first has n nodes.
fn second_side(book: &[u8], certificate: &[u8], w: &[u64], n: usize, b: Subject) -> Outcome
    requires { Room FIRST n w.now }
    ensures { Seconded book.now certificate.now n b w.now result }
{
    match b {
        Subject::Empty => no_side(n),
        Subject::Call(at) => second::hold_instance(
            book,
            book,
            certificate,
            w,
            FIRST,
            n,
            at,
            1,
            0,
            OWN,
        ),
        Subject::Claimed { at, i, j, filled } => second::hold_instance(
            book,
            certificate,
            certificate,
            w,
            FIRST,
            n,
            at,
            i,
            j,
            fills_of(filled),
        ),
    }
}

// Builds the first side and holds the second against it.
fn compare(book: &[u8], certificate: &[u8], w: &mut [u64], a: Subject, b: Subject) -> Compared
    requires { WORDS ≤ length w.old }
    ensures { Compares book.now certificate.now a b w.old w.new result }
{
    let Some(Side { nodes: n, end }) = first_side(book, certificate, w, a) else {
        return Compared::TooBig;
    };
    match second_side(book, certificate, w, n, b) {
        Outcome::Same => Compared::Equal(end),
        Outcome::Other => Compared::Unequal,
        Outcome::Full => Compared::TooBig,
    }
}

// Two sides are equal, else a number; 16 if one of them is too large.
pub fn equal(
    book: &[u8],
    certificate: &[u8],
    w: &mut [u64],
    number: u16,
    part: usize,
    a: Subject,
    b: Subject,
) -> Found
    requires { WORDS ≤ length w.old }
    ensures { Equals book.now certificate.now number part a b w.old w.new result }
{
    match compare(book, certificate, w, a, b) {
        Compared::TooBig => Err(Fault { number: 16, part }),
        Compared::Unequal => Err(Fault { number, part }),
        Compared::Equal(end) => Ok(end),
    }
}
