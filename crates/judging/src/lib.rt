// The judge over bytes: over a book and a certificate, and over the program's input that holds both.
#![tactic(auto)]

ghost use Rattle.std.specs.Prelude.{◌≡◌, ◌≤◌, ◌<◌, length};
ghost use Rattle.std.specs.Fn.{FnOnceTakesAtMut, FnOnceReturnsAtMut};
ghost use Rattle.table.specs.Places.{WORDS};
ghost use Rattle.table.specs.Answer.{Says};
ghost use Rattle.answers.specs.Numbers.{paper_verdict};
ghost use Rattle.layout.specs.Openings.{Beside};
ghost use Rattle.verdicts.specs.Judging.{judging_certificate, judging_files};
ghost use Rattle.verdicts.specs.Program.{book_length, judging_framed};
ghost use Rattle.judging.specs.Lent.{Lent};
ghost use Rattle.judging.specs.Judged.{Judged, JudgedInput};
ghost use Rattle.judging.specs.Placed.{Placed};

use answers::{Refusal, Verdict, W};
use layout::seeing::{see_book, see_certificate};
use table::WORDS;

// The files and the work table are lent as slices of their own, as C lends them; `begins` says why no struct holds them.

// The certificate beside its good book: walked to its end, then judged.
fn judge_certificate(book: &[u8], counts: &[u8], certificate: &[u8], work: &mut [u64]) -> Verdict
    requires { Beside book.now counts.now × (length certificate.now ≤ 32768) × (WORDS ≤ length work.old) }
    ensures answered { paper_verdict result ≡ judging_certificate book.now certificate.now }
    ensures lent { length work.new ≡ length work.old }
    ensures placed { Placed book.now certificate.now work.new result }
{
    see_certificate(book, counts, certificate)?;
    lines::judge_lines(book, certificate, work)
}

// Both files: their lengths, the whole book, and the certificate beside it. The table is not cleared: this also serves what asks more of
// an accepted certificate.
pub fn judge_files(book: &[u8], certificate: &[u8], work: &mut [u64]) -> Verdict
    requires { WORDS ≤ length work.old }
    ensures answered { paper_verdict result ≡ judging_files book.now certificate.now }
    ensures lent { length work.new ≡ length work.old }
    ensures placed { Placed book.now certificate.now work.new result }
{
    answers::check_length(book.len(), 16384, W::Book)?;
    answers::check_length(certificate.len(), 32768, W::Certificate)?;
    let mut counts = [0u8; 256];
    let rules = see_book(book, &mut counts)?;
    judge_certificate(book, &counts[..rules], certificate, work)
}

// Whether a work table has fewer than 8,192 numbers.
pub fn is_short(work: &[u64]) -> bool
    ensures { Says (length work.now < WORDS) result }
{
    work.len() < WORDS
}

// What needs a whole work table, run on the one that is lent, whose numbers are then all set to 0. A short one is refused with 1 and
// not touched.
pub fn with_table<T, F>(work: &mut [u64], run: F) -> Result<T, Refusal>
where
    F: FnOnce(&mut [u64]) -> Result<T, Refusal> + Drop,
    requires { WORDS ≤ length work.old → FnOnceTakesAtMut F.FnOnce run work.old }
    ensures { Lent (FnOnceReturnsAtMut F.FnOnce run work.old) work.old result work.new }
{
    if is_short(work) {
        return Err(answers::whole(1, W::Neither));
    }
    let answer = run(work);
    table::clear(work);
    answer
}

// Judges a certificate over its book.
pub fn judge(book: &[u8], certificate: &[u8], work: &mut [u64]) -> Verdict
    ensures { Judged book.now certificate.now work.old result work.new }
{
    with_table(work, |table| judge_files(book, certificate, table))
}

// The book's length, from the input's first two bytes.
fn book_length(input: &[u8]) -> usize
    requires { 2 ≤ length input.now }
    ensures { (result ≡ book_length input.now) × (result ≤ 65535) }
{
    u16::from_be_bytes([input[0], input[1]]) as usize
}

// The framing's refusals, which speak of neither file, then both files that the input holds.
fn judge_framed(input: &[u8], work: &mut [u64]) -> Verdict
    requires { WORDS ≤ length work.old }
    ensures answered { paper_verdict result ≡ judging_framed input.now }
    ensures lent { length work.new ≡ length work.old }
{
    answers::check_length(input.len(), 49154, W::Neither)?;
    if input.len() < 2 {
        return Err(answers::whole(3, W::Neither));
    }
    let end = 2 + book_length(input);
    if input.len() < end {
        return Err(answers::whole(3, W::Neither));
    }
    judge_files(&input[2..end], &input[end..], work)
}

// Judges the book and the certificate that the program's input holds.
pub fn judge_input(input: &[u8], work: &mut [u64]) -> Verdict
    ensures { JudgedInput input.now work.old result work.new }
{
    with_table(work, |table| judge_framed(input, table))
}
