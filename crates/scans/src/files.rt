// Both files, walked from their first bit on. Where the walk stands goes beside a refusal too, so `?` doesn't do.
ghost use Rattle.std.specs.Prelude.{false, []};
ghost use Rattle.terms.specs.Arity.{arity_at};
ghost use Rattle.books.specs.Counts.{rules_of_book};
ghost use Rattle.terms.specs.Values.{nothing};
ghost use Rattle.grammar.specs.Books.{a_book};
ghost use Rattle.grammar.specs.Certificates.{a_certificate};
ghost use Rattle.scans.specs.Glance.{first_bit, Scans};
ghost use Rattle.scans.specs.Counts.{CountedBook};

use crate::{Scan, Scanner};
use bits::Cursor;
use terms::signature::Packed;

// A whole book: how many rules it has. How many calls each has is noted.
pub fn book(s: &[u8], counts: &mut [u8]) -> Scan
    ensures walked { Scans s.now a_book first_bit rules_of_book result }
    ensures counted { CountedBook s.now counts.old counts.new }
{
    let mut file = Scanner {
        s,
        cursor: Cursor { at: 0 },
    };
    match books::book(&mut file, Packed { book: s }, counts) {
        Ok(n) => Ok((n, file.cursor)),
        Err(m) => Err((m, file.cursor)),
    }
}

// A certificate, beside its book: the arities stand in the book's bytes, and `counts` tells how many calls each of its rules has.
pub fn certificate(book: &[u8], counts: &[u8], s: &[u8]) -> Scan
    ensures { Scans s.now (a_certificate (arity_at book.now [] false) counts.now) first_bit nothing result }
{
    let mut file = Scanner {
        s,
        cursor: Cursor { at: 0 },
    };
    match certificates::certificate(&mut file, Packed { book }, counts) {
        Ok(()) => Ok((0, file.cursor)),
        Err(m) => Err((m, file.cursor)),
    }
}
