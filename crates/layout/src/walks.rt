// A walk over a whole file by a copier, from its first field on, with outputs.
ghost use Rattle.std.specs.Prelude.{◌≡◌, false, []};
ghost use Rattle.fields.specs.Source.{source, start};
ghost use Rattle.fields.specs.Run.{state, Ran};
ghost use Rattle.grammar.specs.Books.{a_book};
ghost use Rattle.grammar.specs.Certificates.{a_certificate};
ghost use Rattle.grammar.specs.Calls.{a_call};
ghost use Rattle.terms.specs.Arity.{arity_at};
ghost use Rattle.terms.specs.Values.{nothing};
ghost use Rattle.books.specs.Counts.{rules_of_book, CountedBook};
ghost use Rattle.fields.specs.Copying.{walk_of, SameOutputs};

use fields::copier::Copier;
use fields::{Walk, Walker};
use terms::signature::{Listed, Packed};

// What a walk comes to, with the walker where it stands: it goes beside a refusal too, so `?` doesn't do, here and below.
fn ended(found: Result<usize, u16>, at: Walker) -> Walk
    ensures { result ≡ walk_of found at }
{
    match found {
        Ok(v) => Ok((v, at)),
        Err(m) => Err((m, at)),
    }
}

// The book that a copier stands at the beginning of: how many rules it has. How many calls each has is noted.
fn book_by(file: &mut Copier<'_>, counts: &mut [u8]) -> Walk
    requires { file.old.at ≡ start file.old.at.listed }
    ensures lent { SameOutputs file.old file.new }
    ensures walked { Ran (source file.old.s.now file.old.l.now) a_book file.old.at file.old.words.now file.old.bytes.now rules_of_book result file.new.words.now file.new.bytes.now }
    ensures counted { CountedBook (source file.old.s.now file.old.l.now) (state file.old.at file.old.words.now file.old.bytes.now) counts.old counts.new }
{
    if file.at.listed {
        let list = Listed { book: file.l };
        let found = books::book(file, list, counts);
        return ended(found, file.at);
    }
    let bytes = Packed { book: file.s };
    let found = books::book(file, bytes, counts);
    ended(found, file.at)
}

// The certificate that a copier stands at the beginning of, beside its book's bytes: nothing is handed back of it.
fn certificate_by(file: &mut Copier<'_>, book: &[u8], counts: &[u8]) -> Walk
    ensures lent { SameOutputs file.old file.new }
    ensures walked { Ran (source file.old.s.now file.old.l.now) (a_certificate (arity_at book.now [] false) counts.now) file.old.at file.old.words.now file.old.bytes.now nothing result file.new.words.now file.new.bytes.now }
{
    match certificates::certificate(file, Packed { book }, counts) {
        Ok(()) => Ok((0, file.at)),
        Err(m) => Err((m, file.at)),
    }
}

// The call that a copier stands at the beginning of, beside its book's bytes: nothing is handed back of it.
fn call_by(file: &mut Copier<'_>, book: &[u8]) -> Walk
    ensures lent { SameOutputs file.old file.new }
    ensures walked { Ran (source file.old.s.now file.old.l.now) (a_call (arity_at book.now [] false)) file.old.at file.old.words.now file.old.bytes.now nothing result file.new.words.now file.new.bytes.now }
{
    match terms::call_term(file, Packed { book }) {
        Ok(_) => Ok((0, file.at)),
        Err(m) => Err((m, file.at)),
    }
}

// A book, in bytes or in a list: how many rules it has. How many calls each has is noted.
pub fn book(
    listed: bool,
    s: &[u8],
    l: &[u16],
    words: &mut [u16],
    bytes: &mut [u8],
    counts: &mut [u8],
) -> Walk
    ensures walked { Ran (source s.now l.now) a_book (start listed) words.old bytes.old rules_of_book result words.new bytes.new }
    ensures counted { CountedBook (source s.now l.now) (state (start listed) words.old bytes.old) counts.old counts.new }
{
    let at = Walker::first(listed);
    let mut file = Copier {
        s,
        l,
        at,
        words,
        bytes,
    };
    book_by(&mut file, counts)
}

// A certificate beside its book's bytes, in bytes or in a list: nothing is handed back of it.
pub fn certificate(
    listed: bool,
    book: &[u8],
    counts: &[u8],
    s: &[u8],
    l: &[u16],
    words: &mut [u16],
    bytes: &mut [u8],
) -> Walk
    ensures { Ran (source s.now l.now) (a_certificate (arity_at book.now [] false) counts.now) (start listed) words.old bytes.old nothing result words.new bytes.new }
{
    let at = Walker::first(listed);
    let mut file = Copier {
        s,
        l,
        at,
        words,
        bytes,
    };
    certificate_by(&mut file, book, counts)
}

// A call beside its book's bytes, in bytes: nothing is handed back of it.
pub fn call(book: &[u8], s: &[u8], l: &[u16], words: &mut [u16], bytes: &mut [u8]) -> Walk
    ensures { Ran (source s.now l.now) (a_call (arity_at book.now [] false)) (start false) words.old bytes.old nothing result words.new bytes.new }
{
    let at = Walker::first(false);
    let mut file = Copier {
        s,
        l,
        at,
        words,
        bytes,
    };
    call_by(&mut file, book)
}
