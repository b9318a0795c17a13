// The walk over the uses of a certificate's lines, and over where an unfold stops, whatever hands out their fields.
#![tactic(auto)]

ghost use Rattle.std.specs.Prelude.{◌<◌};
ghost use Rattle.fields.specs.Along.{Comes, silent};
ghost use Rattle.terms.specs.Values.{second_of};
ghost use Rattle.grammar.specs.Certificates.{an_index, a_use, uses_of, a_last, a_stop, a_stop_at};

use fields::Fields;
use terms::heads::Heads;
use terms::signature::Signature;

// The two numbers of an index pair: the second.
fn index<R: Fields>(r: &mut R) -> Result<u16, u16>
    ensures { Comes R.steps an_index r.old second_of result r.new }
{
    r.take(12, 0, 4096, 4)?;
    r.take(12, 0, 4096, 4)
}

// A use of a line before `line`: an index pair, with a filling.
pub fn use_line<R: Heads, G: Signature>(r: &mut R, book: G, line: u16) -> Result<(), u16>
    ensures { Comes R.steps (a_use (G.arities book) line) r.old silent result r.new }
{
    r.take(8, 0, line, 4)?;
    index(r)?;
    terms::filling(r, book)
}

// The n uses before the call where an unfold stops.
fn uses<R: Heads, G: Signature>(r: &mut R, book: G, line: u16, n: u16) -> Result<(), u16>
    ensures { Comes R.steps (uses_of (G.arities book) line n) r.old silent result r.new }
{
    for _ in 0..n {
        use_line(r, book, line)?;
    }
    Ok(())
}

// The use at the call where an unfold stops, if there is one.
fn last<R: Heads, G: Signature>(r: &mut R, book: G, line: u16) -> Result<(), u16>
    ensures { Comes R.steps (a_last (G.arities book) line) r.old silent result r.new }
{
    // 01's own bit: an enum of its two values would only be matched once more
    match r.take(1, 0, 2, 4)? {
        0 => Ok(()),
        _ => use_line(r, book, line),
    }
}

// The uses of an unfold that stops at i; at 0 there are none.
fn stop<R: Heads, G: Signature>(r: &mut R, book: G, line: u16, i: u16) -> Result<(), u16>
    ensures { Comes R.steps (a_stop (G.arities book) line i) r.old silent result r.new }
{
    if i == 0 {
        return Ok(());
    }
    uses(r, book, line, i - 1)?;
    last(r, book, line)
}

// The stop of an unfold by a rule of m calls, with its filling and its uses.
pub fn stop_at<R: Heads, G: Signature>(r: &mut R, book: G, line: u16, m: u16) -> Result<(), u16>
    requires { m < 256 }
    ensures { Comes R.steps (a_stop_at (G.arities book) line m) r.old silent result r.new }
{
    let i = r.take(4, m.min(1), m + 1, 4)?;
    terms::filling(r, book)?;
    stop(r, book, line, i)
}
