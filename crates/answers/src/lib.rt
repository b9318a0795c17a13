// What the operations answer: W, a refusal, a verdict, what reading and writing answer, and whether a call is covered.
#![tactic(auto)]

mod text;

ghost use Rattle.std.specs.Prelude.{◌≡◌, ◌<◌, ◌≤◌, MatchResult};
ghost use Rattle.answers.specs.Numbers.{w_of, paper_refusal};
ghost use Rattle.answers.specs.Carried.{refusal_at, carried};

// What a refusal speaks of, with 01's numbers, and 02's for a call.
#[derive(Clone, Copy, Debug, PartialEq, Eq)]
pub enum W {
    Book = 0,
    Certificate = 1,
    Line = 2,
    Closing = 3,
    Neither = 4,
    Call = 5,
}

// A refusal: its number, what it speaks of, and the place there. The number is a number and no enum, since 01 fixes the
// refusals by number, and `carried` below and `verdicts::verdict_line` promise an answer for every one.
#[derive(Clone, Copy, Debug, PartialEq, Eq)]
pub struct Refusal {
    pub number: u16,
    pub w: W,
    pub a: usize,
    pub b: usize,
}

// A certificate that was accepted: the line that its closing names, the step k and the start α.
#[derive(Clone, Copy, Debug, PartialEq, Eq)]
pub struct Acceptance {
    pub line: usize,
    pub k: usize,
    pub alpha: usize,
}

// What the judge answers: an acceptance, or a refusal.
pub type Verdict = Result<Acceptance, Refusal>;

// What reading and writing answer: how many places were filled, or a refusal.
pub type Answer = Result<usize, Refusal>;

// What `covers` answers: the smallest index at which the call is covered, or a refusal.
pub type Coverage = Result<usize, Refusal>;

// The number of what a refusal speaks of.
#[tactic(auto, unfolding(crate::specs::Numbers::w_of))]
pub fn w_number(w: W) -> usize
    ensures { result ≡ w_of w }
{
    w as usize
}

// A refusal with what its number carries: 3 to 7 a place in a file, 9 to 16 a line and a part of it, the others neither.
pub fn carried(number: u16, w: W, a: usize, b: usize) -> Refusal
    ensures { paper_refusal result ≡ carried number (w_of w) a b }
{
    match number {
        3..=7 => Refusal { number, w, a, b: 0 },
        9..=16 => Refusal { number, w, a, b },
        _ => Refusal {
            number,
            w,
            a: 0,
            b: 0,
        },
    }
}

// A refusal that names no place.
pub fn whole(number: u16, w: W) -> Refusal
    ensures { paper_refusal result ≡ refusal_at number (w_of w) 0 }
{
    carried(number, w, 0, 0)
}

// Refusal 2, which names the file, where a file is longer than it may be.
pub fn check_length(length: usize, most: usize, w: W) -> Result<(), Refusal>
    ensures { MatchResult result (λ v. length ≤ most) (λ r. (most < length) × (paper_refusal r ≡ refusal_at 2 (w_of w) 0)) }
{
    if length > most {
        return Err(whole(2, w));
    }
    Ok(())
}
