// The lines of a certificate, each over those before it, and the closing: the verdict on two good files.
#![tactic(auto)]

ghost use Rattle.std.specs.Prelude.{◌≡◌, ◌+◌, ◌≤◌, ◌<◌, length};
ghost use Rattle.answers.specs.Numbers.{w_of, paper_refusal};
ghost use Rattle.answers.specs.Carried.{carried};
ghost use Rattle.table.specs.Places.{WORDS, ROWS};
ghost use Rattle.lines.specs.Certificates.{NotesLine, KindAt, LineAt, ClosingFound, ClosingBy, ClosingAt, LinesAt, Prepares, JudgesLines};

use answers::{Acceptance, Refusal, Verdict, W};
use comparing::{Behind, Fault, Filled, Found, Subject, Whole};
use table::{EMPTY, LEFTS, RIGHTS, USED};

// The files and the work table are lent as slices of their own: `begins` says why.

// Where both sides of line k lie, noted. The two lists stand in the table that was lent, at the places that `table/specs/Places` fixes.
fn note_line(w: &mut [u64], k: usize, left: usize, right: usize)
    requires { (WORDS ≤ length w.old) × (k < ROWS) }
    ensures { NotesLine k left right w.old w.new }
{
    w[LEFTS + k] = left as u64;
    w[RIGHTS + k] = right as u64;
}

// What stands behind a line's claim: an unfold, or a descent. The tag is the bit that was read; 01 names this match on the line kind.
fn behind_claim(
    book: &[u8],
    certificate: &[u8],
    w: &mut [u64],
    tag: u16,
    left: usize,
    right: usize,
    at: usize,
) -> Found
    requires { WORDS ≤ length w.old }
    ensures { KindAt book.now certificate.now tag left right at w.old w.new result }
{
    match tag {
        0 => unfolds::unfold(book, certificate, w, left, right, at),
        _ => descents::descent(book, certificate, w, left, right, at),
    }
}

// The line k at a bit: its claim is noted, and its checks are made.
fn line(book: &[u8], certificate: &[u8], w: &mut [u64], at: usize, k: usize) -> Found
    requires { (WORDS ≤ length w.old) × (k < ROWS) }
    ensures { LineAt book.now certificate.now at k w.old w.new result }
{
    let tag = instances::field(certificate, 1, at);
    let left = tag.at;
    let right = instances::skip(book, certificate, left);
    let rest = begins::pass_right(book, certificate, right);
    note_line(w, k, left, right);
    behind_claim(book, certificate, w, tag.value, left, right, rest)
}

// The refusal of a line or a closing by the first of its checks that is not met.
fn refused(fault: Fault, w: W, line: usize) -> Refusal
    ensures { paper_refusal result ≡ carried fault.number (w_of w) line fault.part }
{
    answers::carried(fault.number, w, line, fault.part)
}

// Both parts of the closing, its filling indexed.
fn closing_parts(
    book: &[u8],
    certificate: &[u8],
    w: &mut [u64],
    line: usize,
    k: u16,
    alpha: u16,
) -> Found
    requires { (WORDS ≤ length w.old) × (line < ROWS) × (k < 4096) × (alpha < 4096) }
    ensures { ClosingFound book.now certificate.now line k alpha w.old w.new result }
{
    let left = begins::noted(w, LEFTS + line);
    let right = begins::noted(w, RIGHTS + line);
    let first = comparing::claimed_right(certificate, right, 1, alpha, Filled::Bare);
    let later = alpha + k;
    let second = Subject::Claimed {
        at: left,
        i: 1,
        j: later,
        filled: Filled::Used,
    };
    comparing::check(
        book,
        certificate,
        w,
        Whole::Closing,
        0,
        right,
        Behind::Nothing,
        Subject::Empty,
        Subject::Empty,
    )?;
    comparing::check(
        book,
        certificate,
        w,
        Whole::Closing,
        1,
        right,
        Behind::Nothing,
        first,
        second,
    )
}

// The verdict of a closing, its filling indexed.
fn closing_by(
    book: &[u8],
    certificate: &[u8],
    w: &mut [u64],
    line: usize,
    k: u16,
    alpha: u16,
) -> Verdict
    requires { (WORDS ≤ length w.old) × (line < ROWS) × (k < 4096) × (alpha < 4096) }
    ensures { ClosingBy book.now certificate.now line k alpha w.old w.new result }
{
    let found = closing_parts(book, certificate, w, line, k, alpha);
    found.map_err(|fault| refused(fault, W::Closing, line))?;
    Ok(Acceptance {
        line,
        k: k as usize,
        alpha: alpha as usize,
    })
}

// The closing at a bit.
fn closing(book: &[u8], certificate: &[u8], w: &mut [u64], at: usize) -> Verdict
    requires { WORDS ≤ length w.old }
    ensures { ClosingAt book.now certificate.now at w.old w.new result }
{
    let line = instances::field(certificate, 8, at);
    let n = line.value as usize;
    let k = instances::field(certificate, 12, line.at);
    let alpha = instances::field(certificate, 12, k.at);
    instances::fillings::list_filling(book, certificate, w, USED, alpha.at);
    closing_by(book, certificate, w, n, k.value, alpha.value)
}

// The n lines from number k on, which lie at a bit, and the closing behind them.
fn lines(book: &[u8], certificate: &[u8], w: &mut [u64], at: usize, k: usize, n: usize) -> Verdict
    requires { (WORDS ≤ length w.old) × (k + n ≤ 255) }
    ensures { LinesAt book.now certificate.now at k n w.old w.new result }
{
    let mut next = at;
    for number in k..k + n {
        let found = line(book, certificate, w, next, number);
        next = found.map_err(|fault| refused(fault, W::Line, number))?;
    }
    closing(book, certificate, w, next)
}

// The table made ready: no filling in the words that stay empty, and the begins of the rules.
fn prepare(book: &[u8], w: &mut [u64])
    requires { WORDS ≤ length w.old }
    ensures { Prepares book.now w.old w.new }
{
    instances::fillings::forget(w, EMPTY);
    begins::index_rules(book, w);
}

// The verdict on a good certificate beside a good book.
pub fn judge_lines(book: &[u8], certificate: &[u8], w: &mut [u64]) -> Verdict
    requires { WORDS ≤ length w.old }
    ensures { JudgesLines book.now certificate.now w.old w.new result }
{
    prepare(book, w);
    let count = instances::field(certificate, 8, 0);
    let n = count.value as usize;
    lines(book, certificate, w, count.at, 0, n)
}
