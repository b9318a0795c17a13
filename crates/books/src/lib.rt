// The walk over a rule book, whatever hands out its fields: it tests each field, and passes it.
#![tactic(auto)]

ghost use Rattle.std.specs.Prelude.{◌≡◌, set};
ghost use Rattle.fields.specs.Along.{Comes, silent};
ghost use Rattle.grammar.specs.Books.{
  arities_of,
  a_signature,
  roots_of,
  a_rule_of,
  a_rule,
  rules_of,
  a_rule_list,
};
ghost use Rattle.books.specs.Counts.{calls_of, how_many_rules, CountedAlong};
ghost use Rattle.books.specs.Whole.{ReadsBook, CountsBook};

use fields::Fields;
use terms::heads::Heads;
use terms::root_term;
use terms::signature::Signature;

// The n arities of a book's symbols.
fn arities<R: Fields>(r: &mut R, n: u16) -> Result<(), u16>
    ensures { Comes R.steps (arities_of n) r.old silent result r.new }
{
    for _ in 0..n {
        r.take(4, 0, 9, 4)?;
    }
    Ok(())
}

// The symbols: a count, and each one's arity.
fn signature<R: Fields>(r: &mut R) -> Result<(), u16>
    ensures { Comes R.steps a_signature r.old silent result r.new }
{
    let n = r.take(8, 0, 256, 4)?;
    arities(r, n)
}

// The n calls of a rule.
fn calls<R: Heads, G: Signature>(r: &mut R, book: G, n: u16) -> Result<(), u16>
    ensures { Comes R.steps (roots_of (G.arities book) n) r.old silent result r.new }
{
    for _ in 0..n {
        root_term(r, book)?;
    }
    Ok(())
}

// The head of a rule and its n calls.
fn rule_of<R: Heads, G: Signature>(r: &mut R, book: G, n: u16) -> Result<(), u16>
    ensures { Comes R.steps (a_rule_of (G.arities book) n) r.old silent result r.new }
{
    root_term(r, book)?;
    calls(r, book, n)
}

// A rule: how many calls it has.
pub fn rule<R: Heads, G: Signature>(r: &mut R, book: G) -> Result<u16, u16>
    ensures { Comes R.steps (a_rule (G.arities book)) r.old calls_of result r.new }
{
    let n = r.take(4, 0, 9, 4)?;
    rule_of(r, book, n)?;
    Ok(n)
}

// The number m noted at a place, if there is one.
// Of a slice's `get_mut` a proof knows the length alone, and no element.
fn note(counts: &mut [u8], k: usize, m: u8)
    ensures { counts.new ≡ set counts.old k m }
{
    if k < counts.len() {
        counts[k] = m;
    }
}

// The n rules of a book; how many calls each has is noted.
fn rules<R: Heads, G: Signature>(r: &mut R, book: G, counts: &mut [u8], n: u16) -> Result<(), u16>
    ensures walked { Comes R.steps (rules_of (G.arities book) n) r.old silent result r.new }
    ensures counted { CountedAlong R.steps (rules_of (G.arities book) n) r.old 0 counts.old counts.new }
{
    for k in 0..n {
        let m = rule(r, book)?;
        note(counts, k as usize, m as u8);
    }
    Ok(())
}

// The rules: a count, which is handed back, and each rule.
fn rule_list<R: Heads, G: Signature>(r: &mut R, book: G, counts: &mut [u8]) -> Result<usize, u16>
    ensures walked { Comes R.steps (a_rule_list (G.arities book)) r.old how_many_rules result r.new }
    ensures counted { CountedAlong R.steps (a_rule_list (G.arities book)) r.old 0 counts.old counts.new }
{
    let n = r.take(8, 0, 256, 4)?;
    rules(r, book, counts, n)?;
    Ok(n as usize)
}

// A whole book: how many rules it has. How many calls each has is noted. `book` tells the arities that the book begins with.
pub fn book<R: Heads, G: Signature>(r: &mut R, book: G, counts: &mut [u8]) -> Result<usize, u16>
    ensures walked { ReadsBook R.steps (G.arities book) r.old result r.new }
    ensures counted { CountsBook R.steps (G.arities book) r.old counts.old counts.new }
{
    signature(r)?;
    rule_list(r, book, counts)
}
