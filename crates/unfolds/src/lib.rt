// The checks of an unfold.
#![tactic(auto)]

ghost use Rattle.std.specs.Prelude.{◌+◌, ◌≤◌, ◌<◌, length};
ghost use Rattle.table.specs.Places.{WORDS, ROWS};
ghost use Rattle.unfolds.specs.Unfoldings.{BehindStop, StopsBy, PartBy, EndsBy, EndsUsed, Ends, PartsAt, StopsAt, UnfoldsBy, UnfoldAt};

use begins::Instance;
use comparing::{Behind, Filled, Found, Subject, Whole};
use table::OWN;

// The files and the work table are lent as slices of their own: `begins` says why.

// What stands behind the call where an unfold stops, the j-th of `count`.
#[tactic(auto, using(crate::proofs::Calls::stays_pending, crate::proofs::Calls::stays_none))]
fn behind_stop(j: usize, count: usize) -> Behind
    ensures { BehindStop j count result }
{
    if j < count {
        Behind::Pending
    } else {
        Behind::Nothing
    }
}

// Part 15 of an unfold, which ends at a bit: the line's right against a subject.
fn stop_by(
    book: &[u8],
    certificate: &[u8],
    w: &mut [u64],
    right: usize,
    theirs: Subject,
    at: usize,
) -> Found
    requires { WORDS ≤ length w.old }
    ensures { StopsBy book.now certificate.now right theirs at w.old w.new result }
{
    let own = comparing::claimed_right(certificate, right, 1, 0, Filled::Bare);
    comparing::check(
        book,
        certificate,
        w,
        Whole::Unfold,
        15,
        right,
        Behind::Nothing,
        own,
        theirs,
    )?;
    Ok(at)
}

// The part j of an unfold, by a use that was read: its right, and the call against the instance of its left.
fn part_by(
    book: &[u8],
    certificate: &[u8],
    w: &mut [u64],
    j: usize,
    behind: Behind,
    call: usize,
    used: Instance,
) -> Found
    requires { WORDS ≤ length w.old }
    ensures { PartBy book.now certificate.now j behind call used w.old w.new result }
{
    let theirs = Subject::Claimed {
        at: used.left,
        i: used.i,
        j: used.j,
        filled: Filled::Used,
    };
    comparing::check(
        book,
        certificate,
        w,
        Whole::Unfold,
        j,
        used.right,
        behind,
        Subject::Call(call),
        theirs,
    )
}

// The last part j, and part 15.
fn last_by(
    book: &[u8],
    certificate: &[u8],
    w: &mut [u64],
    right: usize,
    j: usize,
    count: usize,
    call: usize,
    used: Instance,
) -> Found
    requires { WORDS ≤ length w.old }
    ensures { EndsBy book.now certificate.now right j count call used w.old w.new result }
{
    let theirs = comparing::claimed_right(certificate, used.right, used.i, used.j, Filled::Used);
    let behind = behind_stop(j, count);
    part_by(book, certificate, w, j, behind, call, used)?;
    stop_by(book, certificate, w, right, theirs, used.end)
}

// The last part j of an unfold whose call has a use.
fn last_used(
    book: &[u8],
    certificate: &[u8],
    w: &mut [u64],
    right: usize,
    j: usize,
    count: usize,
    call: usize,
    at: usize,
) -> Found
    requires { WORDS ≤ length w.old }
    ensures { EndsUsed book.now certificate.now right j count call at w.old w.new result }
{
    let used = begins::read_use(book, certificate, w, at);
    last_by(book, certificate, w, right, j, count, call, used)
}

// The call where an unfold stops, at part j.
fn last(
    book: &[u8],
    certificate: &[u8],
    w: &mut [u64],
    right: usize,
    j: usize,
    count: usize,
    call: usize,
    at: usize,
) -> Found
    requires { WORDS ≤ length w.old }
    ensures { Ends book.now certificate.now right j count call at w.old w.new result }
{
    let any = instances::field(certificate, 1, at);
    if any.value == 0 {
        stop_by(book, certificate, w, right, Subject::Call(call), any.at)
    } else {
        last_used(book, certificate, w, right, j, count, call, any.at)
    }
}

// The parts of an unfold from j on; `before` calls stand before the one where it stops.
fn parts(
    book: &[u8],
    certificate: &[u8],
    w: &mut [u64],
    right: usize,
    j: usize,
    count: usize,
    before: usize,
    call: usize,
    at: usize,
) -> Found
    requires { (WORDS ≤ length w.old) × (j + before ≤ 16) }
    ensures { PartsAt book.now certificate.now right j count before call at w.old w.new result }
{
    let mut call = call;
    let mut next = at;
    for part in j..j + before {
        let used = begins::read_use(book, certificate, w, next);
        call = part_by(book, certificate, w, part, Behind::Judged, call, used)?;
        next = used.end;
    }
    last(book, certificate, w, right, j + before, count, call, next)
}

// The parts of an unfold behind its head; it stops at i, and the rule has `count` calls.
fn stop(
    book: &[u8],
    certificate: &[u8],
    w: &mut [u64],
    right: usize,
    i: usize,
    count: usize,
    call: usize,
    at: usize,
) -> Found
    requires { (WORDS ≤ length w.old) × (i ≤ 15) }
    ensures { StopsAt book.now certificate.now right i count call at w.old w.new result }
{
    if i == 0 {
        stop_by(book, certificate, w, right, Subject::Empty, at)
    } else {
        parts(book, certificate, w, right, 1, count, i - 1, call, at)
    }
}

// An unfold by rule k, its filling indexed: its head, then its parts.
fn unfold_by(
    book: &[u8],
    certificate: &[u8],
    w: &mut [u64],
    left: usize,
    right: usize,
    k: usize,
    i: usize,
    at: usize,
) -> Found
    requires { (WORDS ≤ length w.old) × (k < ROWS) × (i ≤ 15) }
    ensures { UnfoldsBy book.now certificate.now left right k i at w.old w.new result }
{
    let calls = instances::field(book, 4, begins::noted(w, k));
    let count = calls.value as usize;
    let head = Subject::Call(calls.at);
    let call = comparing::check(
        book,
        certificate,
        w,
        Whole::Unfold,
        0,
        right,
        Behind::Nothing,
        head,
        Subject::Claimed {
            at: left,
            i: 1,
            j: 0,
            filled: Filled::Bare,
        },
    )?;
    stop(book, certificate, w, right, i, count, call, at)
}

// An unfold, behind its claim. Where both sides of the claim lie is two numbers and no struct: behind the head the right goes on alone.
pub fn unfold(
    book: &[u8],
    certificate: &[u8],
    w: &mut [u64],
    left: usize,
    right: usize,
    at: usize,
) -> Found
    requires { WORDS ≤ length w.old }
    ensures { UnfoldAt book.now certificate.now left right at w.old w.new result }
{
    let rule = instances::field(certificate, 8, at);
    let k = rule.value as usize;
    let stop = instances::field(certificate, 4, rule.at);
    let i = stop.value as usize;
    let uses = instances::fillings::list_filling(book, certificate, w, OWN, stop.at);
    unfold_by(book, certificate, w, left, right, k, i, uses)
}
