// The head of a node: its tag, and the fields that are its own.
ghost use Rattle.std.specs.Prelude.{◌≡◌, cond, eqb};
ghost use Rattle.fields.specs.Along.{Comes, silent};
ghost use Rattle.grammar.specs.Terms.{a_symbol, a_unary, an_exponent, a_raise};
ghost use Rattle.terms.specs.Values.{first_of};
ghost use Rattle.terms.specs.Headings.{HeadAt};

use crate::signature::Signature;
use fields::Fields;
use fields::copier::Copier;

// What stands at the head of a node: a variable; a symbol, by its arity; or a power, by its symbol.
#[derive(Clone, Copy)]
pub enum Head {
    Leaf,
    Applied { arity: u16 },
    Raised { symbol: u16 },
}

// What hands out the heads of nodes, besides fields.
pub trait Heads: Fields {
    // The head of the node that comes next, its tag from `least` on, the number a of a power below `end`, and its symbol not `above`.
    fn head<G: Signature>(&mut self, book: G, end: u16, least: u16, above: u16) -> Result<Head, u16>
        ensures { HeadAt Self.steps (G.arities book) end least above self.old result self.new };
}

// A symbol that takes arguments: its arity.
fn symbol<R: Fields, G: Signature>(r: &mut R, book: G) -> Result<u16, u16>
    ensures { Comes R.steps (a_symbol (G.arities book)) r.old (G.arities book) result r.new }
{
    let f = r.look(8)?;
    let n = book.arity(f);
    if n == 1 {
        return Err(4);
    }
    if n > 8 {
        return Err(4);
    }
    r.pass(8, f);
    Ok(n)
}

// The symbol of a power, which is not the one directly above.
fn unary<R: Fields, G: Signature>(r: &mut R, book: G, above: u16) -> Result<u16, u16>
    ensures { Comes R.steps (a_unary (G.arities book) above) r.old (λ v. v) result r.new }
{
    let f = r.look(8)?;
    if book.arity(f) != 1 {
        return Err(4);
    }
    if f == above {
        return Err(5);
    }
    r.pass(8, f);
    Ok(f)
}

// The least number that b may be beside a.
// An `if`, as the range in `an_exponent` has it.
fn least_beside(a: u16) -> u16
    ensures { result ≡ cond (eqb a 0) 1 0 }
{
    if a == 0 { 1 } else { 0 }
}

// The numbers a and b of a power, not both 0.
fn exponent<R: Fields>(r: &mut R, end: u16) -> Result<(), u16>
    ensures { Comes R.steps (an_exponent end) r.old silent result r.new }
{
    let a = r.take(12, 0, end, 4)?;
    r.take(12, least_beside(a), 4096, 5)?;
    Ok(())
}

// A power's symbol, with its numbers.
fn raise<R: Fields, G: Signature>(r: &mut R, book: G, end: u16, above: u16) -> Result<u16, u16>
    ensures { Comes R.steps (a_raise (G.arities book) end above) r.old first_of result r.new }
{
    let f = unary(r, book, above)?;
    exponent(r, end)?;
    Ok(f)
}

// The head of the node that comes next, field by field.
pub fn head_by_fields<R: Fields, G: Signature>(
    r: &mut R,
    book: G,
    end: u16,
    least: u16,
    above: u16,
) -> Result<Head, u16>
    ensures { HeadAt R.steps (G.arities book) end least above r.old result r.new }
{
    // 01's own tags: an enum of them would only be matched once more
    match r.take(2, least, 3, 4)? {
        0 => {
            r.take(6, 0, 64, 4)?;
            Ok(Head::Leaf)
        }
        1 => Ok(Head::Applied {
            arity: symbol(r, book)?,
        }),
        _ => Ok(Head::Raised {
            symbol: raise(r, book, end, above)?,
        }),
    }
}

impl Heads for Copier<'_> {
    fn head<G: Signature>(
        &mut self,
        book: G,
        end: u16,
        least: u16,
        above: u16,
    ) -> Result<Head, u16> {
        head_by_fields(self, book, end, least, above)
    }
}
