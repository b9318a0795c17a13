// The checks of a descent.
#![tactic(auto)]

ghost use Rattle.std.specs.Prelude.{◌≡◌, ◌≤◌, length};
ghost use Rattle.table.specs.Places.{WORDS};
ghost use Rattle.comparing.specs.declared.Subject.TheVariants.{Claimed};
ghost use Rattle.comparing.specs.declared.Filled.TheVariants.{Bare};
ghost use Rattle.comparing.specs.declared.Whole.TheVariants.{Descent};
ghost use Rattle.comparing.specs.declared.Behind.TheVariants.{Nothing};
ghost use Rattle.comparing.specs.Asked.{Checks};
ghost use Rattle.descents.specs.Descents.{DescentBy, DescentOn, DescentAt};

use begins::Instance;
use comparing::{Behind, Filled, Found, Subject, Whole};
use table::OWN;

// The files and the work table are lent as slices of their own: `begins` says why.

// The line's left, reindexed.
fn own_left(left: usize, i: u16, j: u16) -> Subject
    ensures { result ≡ Claimed left i j Bare }
{
    Subject::Claimed {
        at: left,
        i,
        j,
        filled: Filled::Bare,
    }
}

// The parts of a descent, which ends at a bit, by a base that was read and a rule at a bit of the book.
fn descent_by(
    book: &[u8],
    certificate: &[u8],
    w: &mut [u64],
    left: usize,
    right: usize,
    base: Instance,
    rule: usize,
    at: usize,
) -> Found
    requires { WORDS ≤ length w.old }
    ensures { DescentBy book.now certificate.now left right base rule at w.old w.new result }
{
    let head = instances::field(book, 4, rule).at;
    let base_left = Subject::Claimed {
        at: base.left,
        i: base.i,
        j: base.j,
        filled: Filled::Used,
    };
    let base_right = comparing::claimed_right(
        certificate,
        base.right,
        base.i,
        base.j,
        Filled::Used,
    );
    let own_right = comparing::claimed_right(certificate, right, 0, 0, Filled::Bare);
    let check = |w: &mut [u64], part: usize, a: Subject, b: Subject| -> Found
        requires { WORDS ≤ length w.old }
        ensures { Checks book.entry.now certificate.entry.now Descent part right Nothing a b w.old w.new result }
    {
        comparing::check(
            book,
            certificate,
            w,
            Whole::Descent,
            part,
            right,
            Behind::Nothing,
            a,
            b,
        )
    };
    check(w, 0, base_left, own_left(left, 0, 0))?;
    check(w, 1, base_right, own_right)?;
    let call = check(w, 2, Subject::Call(head), own_left(left, 1, 1))?;
    check(w, 3, Subject::Call(call), own_left(left, 1, 0))?;
    check(w, 4, Subject::Empty, Subject::Empty)?;
    Ok(at)
}

// The rule and the filling of a descent behind its base.
fn descent_on(
    book: &[u8],
    certificate: &[u8],
    w: &mut [u64],
    left: usize,
    right: usize,
    base: Instance,
) -> Found
    requires { WORDS ≤ length w.old }
    ensures { DescentOn book.now certificate.now left right base w.old w.new result }
{
    let rule = instances::field(certificate, 8, base.end);
    let k = rule.value as usize;
    let begin = begins::noted(w, k);
    let end = instances::fillings::list_filling(book, certificate, w, OWN, rule.at);
    descent_by(book, certificate, w, left, right, base, begin, end)
}

// A descent, behind its claim.
pub fn descent(
    book: &[u8],
    certificate: &[u8],
    w: &mut [u64],
    left: usize,
    right: usize,
    at: usize,
) -> Found
    requires { WORDS ≤ length w.old }
    ensures { DescentAt book.now certificate.now left right at w.old w.new result }
{
    let base = begins::read_use(book, certificate, w, at);
    descent_on(book, certificate, w, left, right, base)
}
