// The header of a node: its tag, and the fields that are its own, all out of one view; and the walk over a term, node after node.
ghost use Rattle.std.specs.Prelude.{◌+◌, ◌*◌, ◌≤◌, ◌^◌};
ghost use Rattle.std.specs.Iterator.{at_most};
ghost use Rattle.instances.specs.Headers.{Heads};

use crate::{Header, Stand, is_over};
use bits::Cursor;

// The header of the node at a bit, where x is the view from there on and the file has `room` bits.
pub fn header_of(book: &[u8], x: u64, at: usize, room: usize) -> Header
    ensures { Heads book.now x at room result }
{
    if at > room {
        return Header::Missing;
    }
    let rest = room - at;
    // 01's own tags: `Header` is the enum of them
    match (x >> 62) % 4 {
        0 => {
            if rest < 8 {
                return Header::Missing;
            }
            Header::Variable {
                variable: ((x >> 56) % 64) as u16,
                past: Cursor { at: at + 8 },
            }
        }
        1 => {
            if rest < 10 {
                return Header::Missing;
            }
            let symbol = ((x >> 54) % 256) as u16;
            Header::Symbol {
                symbol,
                arity: terms::arity_of(book, symbol),
                past: Cursor { at: at + 10 },
            }
        }
        2 => {
            if rest < 34 {
                return Header::Missing;
            }
            Header::Power {
                symbol: ((x >> 54) % 256) as u16,
                a: ((x >> 42) % 4096) as u16,
                b: ((x >> 30) % 4096) as u16,
                past: Cursor { at: at + 34 },
            }
        }
        _ => Header::Missing,
    }
}

// A walk over the term at a bit of s, over at most 256 nodes: where it stands, and how many nodes are still allowed. The count of terms to come
// stays far below what a number holds.
#[derive(Drop)]
pub struct Walk<'a> {
    book: &'a [u8],
    s: &'a [u8],
    pub stand: Stand,
    left: usize,
    ghost within: { stand.pending + 65536 * left ≤ 2 ^ 32 },
}

impl<'a> Walk<'a> {
    ghost use Rattle.instances.specs.Turns.{Begins};

    // A lone term is to come.
    pub fn new(book: &'a [u8], s: &'a [u8], at: usize) -> Walk<'a>
        ensures { Begins book.now s.now at result }
    {
        Walk {
            book,
            s,
            stand: Stand { at, pending: 1 },
            left: 256,
        }
    }
}

impl Iterator for Walk<'_> {
    ghost use Rattle.instances.specs.Turns.{Turns};

    type Item = Header;

    ghost next_gives = { λ t r u. Turns t u r };

    ghost remaining = { λ t. at_most t.left };

    // The next node, unless the walk is over. Out of line, where the compiler leaves it, an optional header goes through memory at each node.
    #[inline(always)]
    fn next(&mut self) -> Option<Header> {
        let Stand { at, pending } = self.stand;
        if is_over(self.stand, self.left) {
            return None;
        }
        let header = header_of(self.book, bits::view(self.s, at), at, bits::room(self.s));
        self.stand = crate::next(header, pending);
        self.left -= 1;
        Some(header)
    }
}
