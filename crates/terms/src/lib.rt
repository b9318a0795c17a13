// The walk over terms and fillings, whatever hands out their fields: it tests each field, and passes it.
#![tactic(auto)]

pub mod heads;
pub mod signature;

ghost use Rattle.std.specs.Prelude.{ℕ, ◌≤◌};
ghost use Rattle.fields.specs.Along.{Comes, silent};
ghost use Rattle.grammar.specs.Terms.{a_term, args_of, any_term, root_term, call_term, a_pair, pairs_of, a_filling};
ghost use Rattle.terms.specs.Values.{left_of, left_of_all, first_of};

use heads::{Head, Heads};
use signature::Signature;
pub use signature::arity_of;

// The term that comes next, of at most `left` nodes, its tag from `least` on: the nodes still allowed behind it. The loop goes from power to power.
#[cycle(args_term)]
fn term<R: Heads, G: Signature>(
    r: &mut R,
    book: G,
    end: u16,
    least: u16,
    left: usize,
) -> Result<usize, u16>
    ensures { (deep : ℕ) → left ≤ deep → Comes R.steps (a_term deep (G.arities book) end least 256 left) r.old left_of result r.new }
{
    let mut from = least;
    // no symbol is 256: `a_term` begins with that number above the root
    let mut above: u16 = 256;
    for rest in (0..left).rev() {
        match r.head(book, end, from, above)? {
            Head::Leaf => return Ok(rest),
            Head::Applied { arity } => return args(r, book, end, arity, 0, rest),
            Head::Raised { symbol } => {
                from = 0;
                above = symbol;
            }
        }
    }
    Err(6)
}

// The n terms of an argument list, each tag from `least` on: the nodes still allowed behind them.
#[cycle(args_term)]
fn args<R: Heads, G: Signature>(
    r: &mut R,
    book: G,
    end: u16,
    n: u16,
    least: u16,
    left: usize,
) -> Result<usize, u16>
    ensures { (deep : ℕ) → left ≤ deep → Comes R.steps (args_of (λ k. a_term deep (G.arities book) end least 256 k) n left) r.old left_of_all result r.new }
{
    let mut rest = left;
    for _ in 0..n {
        rest = term(r, book, end, least, rest)?;
    }
    Ok(rest)
}

// A term of a certificate, of at most 256 nodes, as an argument list of one.
pub fn any_term<R: Heads, G: Signature>(r: &mut R, book: G) -> Result<usize, u16>
    ensures { Comes R.steps (any_term (G.arities book)) r.old left_of result r.new }
{
    args(r, book, 4096, 1, 0, 256)
}

// The head or a call of a rule, of at most 256 nodes, as an argument list of one.
pub fn root_term<R: Heads, G: Signature>(r: &mut R, book: G) -> Result<usize, u16>
    ensures { Comes R.steps (root_term (G.arities book)) r.old left_of result r.new }
{
    args(r, book, 1, 1, 1, 256)
}

// A call without index, of at most 256 nodes, as an argument list of one.
pub fn call_term<R: Heads, G: Signature>(r: &mut R, book: G) -> Result<usize, u16>
    ensures { Comes R.steps (call_term (G.arities book)) r.old left_of result r.new }
{
    args(r, book, 1, 1, 0, 256)
}

// A variable from `least` on, with the term that fills it.
fn pair<R: Heads, G: Signature>(r: &mut R, book: G, least: u16) -> Result<u16, u16>
    ensures { Comes R.steps (a_pair (G.arities book) least) r.old first_of result r.new }
{
    let x = r.take(6, least, 64, 4)?;
    any_term(r, book)?;
    Ok(x)
}

// The n pairs of a filling, their variables rising from `least` on.
fn pairs<R: Heads, G: Signature>(r: &mut R, book: G, n: u16, least: u16) -> Result<(), u16>
    ensures { Comes R.steps (pairs_of (G.arities book) n least) r.old silent result r.new }
{
    let mut next = least;
    for _ in 0..n {
        next = pair(r, book, next)? + 1;
    }
    Ok(())
}

// A filling: a count, and that many pairs.
pub fn filling<R: Heads, G: Signature>(r: &mut R, book: G) -> Result<(), u16>
    ensures { Comes R.steps (a_filling (G.arities book)) r.old silent result r.new }
{
    let n = r.take(7, 0, 65, 4)?;
    pairs(r, book, n, 0)
}
