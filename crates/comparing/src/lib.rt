// Which check is made at each part of an unfold, a descent and the closing, and the check: what is built for its sides, and what is asked of a right.
#![tactic(auto)]

mod rights;
mod sides;

ghost use Rattle.std.specs.Prelude.{◌≡◌, ◌≤◌, length};
ghost use Rattle.table.specs.Places.{WORDS};
ghost use Rattle.comparing.specs.Subjects.{RightMeans};
ghost use Rattle.comparing.specs.Asked.{LedEquals, asked_at, Checks};

use instances::field;

// The files and the work table are lent as slices of their own: `begins` says why.

// What fills a term of the certificate: nothing, or a use's filling.
#[derive(Clone, Copy)]
pub enum Filled {
    Bare,
    Used,
}

// What is built for a comparison: the empty mark; a head or call of a rule at a bit of the book; or a term at a bit of the
// certificate, reindexed and filled. Its index is two numbers and no struct, since most are written out: (1, 0), (0, 0), (1, 1).
#[derive(Clone, Copy)]
pub enum Subject {
    Empty,
    Call(usize),
    Claimed {
        at: usize,
        i: u16,
        j: u16,
        filled: Filled,
    },
}

// What a comparison comes to: equal, with the bit behind the first side's term; not equal; or a side has more than 1,024 nodes.
// Three answers that are alike, each with a number of its own in `sides::equal`: a Result of an Option would say no more.
#[derive(Clone, Copy)]
pub enum Compared {
    Equal(usize),
    Unequal,
    TooBig,
}

// The first of some checks that is not met: its number and its part. The number is the one that 01's table of refusals gives to the
// check, and a refusal tells it to the caller, so no enum stands for it.
#[derive(Clone, Copy)]
pub struct Fault {
    pub number: u16,
    pub part: usize,
}

// What some checks come to: all are met, and a bit where the next begin; or the first that is not.
pub type Found = Result<usize, Fault>;

// The whole whose part a check is.
#[derive(Clone, Copy)]
pub enum Whole {
    Unfold,
    Descent,
    Closing,
}

// What stands behind a call that has a use: calls that the line judges too, calls that stay pending, or none.
#[derive(Clone, Copy)]
pub enum Behind {
    Judged,
    Pending,
    Nothing,
}

// What is asked at a part, with the numbers of its refusals: that two sides are equal; that the right of a use is what the calls behind
// it ask for, and then that two sides are equal; that a right is the same at every index; that a right is there.
#[derive(Clone, Copy)]
pub enum Asked {
    Same(u16),
    Led { before: u16, number: u16 },
    Level(u16),
    Present(u16),
}

// The right at a bit, reindexed and filled.
pub fn claimed_right(certificate: &[u8], at: usize, i: u16, j: u16, filled: Filled) -> Subject
    ensures { RightMeans certificate.now at i j filled result }
{
    let any = field(certificate, 1, at);
    if any.value == 0 {
        Subject::Empty
    } else {
        Subject::Claimed {
            at: any.at,
            i,
            j,
            filled,
        }
    }
}

// A use's right is as its place asks, else one number; then two sides are equal, else another.
fn led_equal(
    book: &[u8],
    certificate: &[u8],
    w: &mut [u64],
    before: u16,
    number: u16,
    part: usize,
    right: usize,
    behind: Behind,
    a: Subject,
    b: Subject,
) -> Found
    requires { WORDS ≤ length w.old }
    ensures { LedEquals book.now certificate.now before number part right behind a b w.old w.new result }
{
    rights::led(certificate, before, part, right, behind)?;
    sides::equal(book, certificate, w, number, part, a, b)
}

// What is asked at each part of each whole: the match on the part that 01 names. What is asked is a case of an enum and no closure:
// there are four, no caller brings another, and what the checks come to is proved by these cases (`checks_of`).
fn asked_at(whole: Whole, part: usize) -> Asked
    ensures { result ≡ asked_at whole part }
{
    match whole {
        Whole::Unfold => match part {
            0 => Asked::Same(9),
            15 => Asked::Same(12),
            _ => Asked::Led {
                before: 11,
                number: 10,
            },
        },
        Whole::Descent => match part {
            0 => Asked::Same(9),
            1 => Asked::Same(12),
            2 => Asked::Same(9),
            3 => Asked::Same(10),
            _ => Asked::Level(13),
        },
        Whole::Closing => match part {
            0 => Asked::Present(14),
            _ => Asked::Same(15),
        },
    }
}

// The check that is made at a part: each looks at what it asks for, a right at a bit, what stands behind its call, or two sides.
pub fn check(
    book: &[u8],
    certificate: &[u8],
    w: &mut [u64],
    whole: Whole,
    part: usize,
    right: usize,
    behind: Behind,
    a: Subject,
    b: Subject,
) -> Found
    requires { WORDS ≤ length w.old }
    ensures { Checks book.now certificate.now whole part right behind a b w.old w.new result }
{
    match asked_at(whole, part) {
        Asked::Same(n) => sides::equal(book, certificate, w, n, part, a, b),
        Asked::Led {
            before: l,
            number: n,
        } => led_equal(book, certificate, w, l, n, part, right, behind, a, b),
        Asked::Level(n) => rights::level(book, certificate, n, part, right),
        Asked::Present(n) => rights::led(certificate, n, part, right, Behind::Pending),
    }
}
