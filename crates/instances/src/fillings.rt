// A packed filling indexed in 64 words of the work table.
ghost use Rattle.std.specs.Prelude.{◌+◌, ◌≤◌, length};
ghost use Rattle.instances.specs.Listings.{Lists, Forgets};
ghost use Rattle.instances.specs.Noting.{NotesPairs};

use crate::{field, skip};

// No variable is filled: 64 words 0.
pub fn forget(w: &mut [u64], fills: usize)
    requires { fills + 64 ≤ length w.old }
    ensures { Forgets fills w.old w.new }
{
    w[fills..fills + 64].fill(0);
}

// The n pairs at a bit of s: each variable's word is one more than the bit where its term begins. The answer is where they end.
fn list_pairs(book: &[u8], s: &[u8], w: &mut [u64], fills: usize, n: u16, at: usize) -> usize
    requires { fills + 64 ≤ length w.old }
    ensures { NotesPairs book.now s.now fills n at w.old w.new result }
{
    let mut pair = at;
    for _ in 0..n {
        let variable = field(s, 6, pair);
        let x = variable.value as usize;
        let term = variable.at;
        let end = skip(book, s, term);
        w[fills + x] = (term as u64) + 1;
        pair = end;
    }
    pair
}

// The filling at a bit of s, indexed in the 64 words from `fills` on; the answer is where it ends.
pub fn list_filling(book: &[u8], s: &[u8], w: &mut [u64], fills: usize, at: usize) -> usize
    requires { fills + 64 ≤ length w.old }
    ensures { Lists book.now s.now fills at w.old w.new result }
{
    forget(w, fills);
    let count = field(s, 7, at);
    list_pairs(book, s, w, fills, count.value, count.at)
}
