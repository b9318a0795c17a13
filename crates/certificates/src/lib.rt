// The walk over a certificate, whatever hands out its fields: it tests each field, and passes it.
#![tactic(auto)]

ghost use Rattle.std.specs.Prelude.{◌≡◌, ◌<◌, get_or};
ghost use Rattle.fields.specs.Along.{Comes, silent};
ghost use Rattle.grammar.specs.Certificates.{a_right, a_claim, an_unfold, a_fall, a_descent, a_kind, a_line, lines_of, a_pace, a_closing, a_certificate};

use fields::Fields;
use terms::heads::Heads;
use terms::signature::Signature;

// What stands right of the arrow: the empty mark, or a term.
fn right<R: Heads, G: Signature>(r: &mut R, book: G) -> Result<(), u16>
    ensures { Comes R.steps (a_right (G.arities book)) r.old silent result r.new }
{
    // 01's own bit: an enum of its two values would only be matched once more
    match r.take(1, 0, 2, 4)? {
        0 => Ok(()),
        _ => {
            terms::any_term(r, book)?;
            Ok(())
        }
    }
}

// What a line claims: a term, and what stands right of the arrow.
fn claim<R: Heads, G: Signature>(r: &mut R, book: G) -> Result<(), u16>
    ensures { Comes R.steps (a_claim (G.arities book)) r.old silent result r.new }
{
    terms::any_term(r, book)?;
    right(r, book)
}

// How many calls rule k has, 0 where there is no such rule.
fn calls(counts: &[u8], k: u16) -> u16
    ensures counted { result ≡ get_or counts.now k 0 }
    ensures small { result < 256 }
{
    let m = counts.get(usize::from(k)).copied().unwrap_or(0);
    u16::from(m)
}

// An unfold: its rule, and where it stops.
fn unfold<R: Heads, G: Signature>(r: &mut R, book: G, counts: &[u8], line: u16) -> Result<(), u16>
    ensures { Comes R.steps (an_unfold (G.arities book) counts.now line) r.old silent result r.new }
{
    // a rule's number has 8 bits
    let end = counts.len().min(256) as u16;
    let k = r.take(8, 0, end, 4)?;
    uses::stop_at(r, book, line, calls(counts, k))
}

// The rule of a descent, one of exactly one call, with a filling.
fn fall<R: Heads, G: Signature>(r: &mut R, book: G, counts: &[u8]) -> Result<(), u16>
    ensures { Comes R.steps (a_fall (G.arities book) counts.now) r.old silent result r.new }
{
    let k = r.look(8)?;
    if calls(counts, k) != 1 {
        return Err(4);
    }
    r.pass(8, k);
    terms::filling(r, book)
}

// A descent: its base, and its rule.
fn descent<R: Heads, G: Signature>(r: &mut R, book: G, counts: &[u8], line: u16) -> Result<(), u16>
    ensures { Comes R.steps (a_descent (G.arities book) counts.now line) r.old silent result r.new }
{
    uses::use_line(r, book, line)?;
    fall(r, book, counts)
}

// What stands behind the claim of a line: an unfold, or a descent.
#[tactic(auto, using(crate::proofs::Cases::kind_unfold, crate::proofs::Cases::kind_descent))]
fn kind<R: Heads, G: Signature>(
    r: &mut R,
    book: G,
    counts: &[u8],
    line: u16,
    tag: u16,
) -> Result<(), u16>
    ensures { Comes R.steps (a_kind (G.arities book) counts.now line tag) r.old silent result r.new }
{
    // 01's own tag, as `a_kind` tells it
    match tag {
        0 => unfold(r, book, counts, line),
        _ => descent(r, book, counts, line),
    }
}

// The line with the number `line`, which its uses stay below: its claim, and what stands behind it.
pub fn line<R: Heads, G: Signature>(r: &mut R, book: G, counts: &[u8], line: u16) -> Result<(), u16>
    ensures { Comes R.steps (a_line (G.arities book) counts.now line) r.old silent result r.new }
{
    let tag = r.take(1, 0, 2, 4)?;
    claim(r, book)?;
    kind(r, book, counts, line, tag)
}

// The n lines of a certificate.
fn lines<R: Heads, G: Signature>(r: &mut R, book: G, counts: &[u8], n: u16) -> Result<(), u16>
    ensures { Comes R.steps (lines_of (G.arities book) counts.now n 0) r.old silent result r.new }
{
    for number in 0..n {
        line(r, book, counts, number)?;
    }
    Ok(())
}

// The step and the start of a closing, together at most 4,095: the start.
fn pace<R: Fields>(r: &mut R) -> Result<u16, u16>
    ensures { Comes R.steps a_pace r.old (λ p. p.α) result r.new }
{
    let k = r.take(12, 0, 4096, 4)?;
    r.take(12, 0, 4096 - k, 4)
}

// The closing on one of n lines, with its filling.
pub fn closing<R: Heads, G: Signature>(r: &mut R, book: G, n: u16) -> Result<(), u16>
    ensures { Comes R.steps (a_closing (G.arities book) n) r.old silent result r.new }
{
    r.take(8, 0, n, 4)?;
    pace(r)?;
    terms::filling(r, book)
}

// A certificate: how many lines, the lines, and the closing. `counts` tells how many calls each rule of its book has.
pub fn certificate<R: Heads, G: Signature>(r: &mut R, book: G, counts: &[u8]) -> Result<(), u16>
    ensures { Comes R.steps (a_certificate (G.arities book) counts.now) r.old silent result r.new }
{
    let n = r.take(8, 0, 256, 4)?;
    lines(r, book, counts, n)?;
    closing(r, book, n)
}
