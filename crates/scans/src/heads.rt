// The head of a node, read from one view of the file's bytes.
ghost use Rattle.std.specs.Prelude.{◌+◌, ◌^◌, ◌≤◌};
ghost use Rattle.scans.specs.Headings.{SymbolAt, PowerAt, NodeAt};

use crate::Scanner;
use bits::Cursor;
use terms::heads::{Head, Heads};
use terms::signature::Signature;

// What stands at the head of a node, with the cursor past it; or the number of a refusal, with the cursor where it is given.
type Found = Result<(Head, Cursor), (u16, Cursor)>;

// The symbol of a node that begins at a bit, from which on there are `left` bits; x is the view there.
fn symbol<G: Signature>(book: G, x: u64, at: usize, left: usize) -> Found
    requires { (2 ≤ left) × (at + left ≤ 2 ^ 32) }
    ensures { SymbolAt (G.arities book) x at left result }
{
    if left < 10 {
        return Err((3, Cursor { at: at + 2 }));
    }
    let f = (x >> 54) % 256;
    let n = book.arity(f as u16);
    if n == 1 {
        return Err((4, Cursor { at: at + 2 }));
    }
    if n > 8 {
        return Err((4, Cursor { at: at + 2 }));
    }
    Ok((Head::Applied { arity: n }, Cursor { at: at + 10 }))
}

// The power of such a node: its symbol, which is not the one directly above, and its numbers, a below `end`, and not both 0.
fn power<G: Signature>(book: G, x: u64, at: usize, left: usize, end: u16, above: u16) -> Found
    requires { (2 ≤ left) × (at + left ≤ 2 ^ 32) }
    ensures { PowerAt (G.arities book) end above x at left result }
{
    if left < 10 {
        return Err((3, Cursor { at: at + 2 }));
    }
    let f = ((x >> 54) % 256) as u16;
    let n = book.arity(f);
    if n != 1 {
        return Err((4, Cursor { at: at + 2 }));
    }
    if f == above {
        return Err((5, Cursor { at: at + 2 }));
    }
    if left < 22 {
        return Err((3, Cursor { at: at + 10 }));
    }
    if (x >> 42) % 4096 >= end as u64 {
        return Err((4, Cursor { at: at + 10 }));
    }
    if left < 34 {
        return Err((3, Cursor { at: at + 22 }));
    }
    if (x >> 30) % 16777216 == 0 {
        return Err((5, Cursor { at: at + 22 }));
    }
    Ok((Head::Raised { symbol: f }, Cursor { at: at + 34 }))
}

// The head of the node at a cursor, its tag from `least` on. All its fields are taken out of one view.
fn head_at<G: Signature>(book: G, s: &[u8], end: u16, c: Cursor, least: u16, above: u16) -> Found
    ensures { NodeAt s.now (G.arities book) end least above c result }
{
    let at = c.at;
    let room = bits::room(s);
    if at > room {
        return Err((3, c));
    }
    let left = room - at;
    if left < 2 {
        return Err((3, c));
    }
    let x = bits::view(s, at);
    let tag = (x >> 62) % 4;
    if tag < least as u64 {
        return Err((4, c));
    }
    // 01's own tags: an enum of them would only be matched once more
    match tag {
        0 => {
            if left < 8 {
                return Err((3, Cursor { at: at + 2 }));
            }
            Ok((Head::Leaf, Cursor { at: at + 8 }))
        }
        1 => symbol(book, x, at, left),
        2 => power(book, x, at, left, end, above),
        _ => Err((4, c)),
    }
}

impl Heads for Scanner<'_> {
    fn head<G: Signature>(
        &mut self,
        book: G,
        end: u16,
        least: u16,
        above: u16,
    ) -> Result<Head, u16> {
        match head_at(book, self.s, end, self.cursor, least, above) {
            Ok((head, past)) => {
                self.cursor = past;
                Ok(head)
            }
            Err((number, at)) => {
                self.cursor = at;
                Err(number)
            }
        }
    }
}
