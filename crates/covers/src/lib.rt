// Whether a call is in the family of an accepted certificate.
#![tactic(auto)]

ghost use Rattle.std.specs.Prelude.{◌≡◌, ◌≤◌, length};
ghost use Rattle.table.specs.Places.{WORDS};
ghost use Rattle.answers.specs.Numbers.{paper_pace, paper_coverage};
ghost use Rattle.verdicts.specs.Judging.{judging_files};
ghost use Rattle.matching.specs.Matching.{index_found};
ghost use Rattle.covers.specs.Asking.{told_index, asking_accepted, asking_judged};
ghost use Rattle.covers.specs.Stages.{Ready, AsksCall};
ghost use Rattle.covers.specs.Told.{CoverTold};

use answers::{Acceptance, Coverage, W};
use table::LEFTS;

// The files, the call and the work table are lent as slices of their own, as C lends them; `begins` says why no struct holds them.

// The index that was found; 17 where there is none.
fn index_told(found: Option<usize>) -> Coverage
    ensures { paper_coverage result ≡ told_index (index_found found) }
{
    found.ok_or(answers::whole(17, W::Neither))
}

// The call beside its good book: read to its end, then looked for in the family of the pattern at a bit of the certificate.
fn ask_call(
    book: &[u8],
    certificate: &[u8],
    call: &[u8],
    work: &mut [u64],
    at: usize,
    alpha: u16,
) -> Coverage
    requires { (WORDS ≤ length work.old) × (alpha ≤ 4095) }
    ensures answered { AsksCall book.now certificate.now call.now at alpha result }
    ensures lent { length work.new ≡ length work.old }
{
    layout::open_call(book, call)?;
    index_told(matching::search(book, certificate, call, work, at, alpha))
}

// The certificate is accepted: the table tells where the left of the named line lies.
fn ask_accepted(
    book: &[u8],
    certificate: &[u8],
    call: &[u8],
    work: &mut [u64],
    a: Acceptance,
) -> Coverage
    requires { (WORDS ≤ length work.old) × Ready book.now certificate.now work.old a }
    ensures answered { paper_coverage result ≡ asking_accepted book.now certificate.now call.now a.line (paper_pace a) }
    ensures lent { length work.new ≡ length work.old }
{
    let left = begins::noted(work, LEFTS + a.line);
    let alpha = a.alpha as u16;
    ask_call(book, certificate, call, work, left, alpha)
}

// The certificate judged, and the call looked at only if it is accepted.
fn ask_files(book: &[u8], certificate: &[u8], call: &[u8], work: &mut [u64]) -> Coverage
    requires { WORDS ≤ length work.old }
    ensures answered { paper_coverage result ≡ asking_judged book.now certificate.now call.now (judging_files book.now certificate.now) }
    ensures lent { length work.new ≡ length work.old }
{
    let a = judging::judge_files(book, certificate, work)?;
    ask_accepted(book, certificate, call, work, a)
}

// Whether some index from α on and some filling turn the accepted pattern into the call; the smallest such index.
pub fn covers(book: &[u8], certificate: &[u8], call: &[u8], work: &mut [u64]) -> Coverage
    ensures { CoverTold book.now certificate.now call.now work.old result work.new }
{
    judging::with_table(work, |table| ask_files(book, certificate, call, table))
}
