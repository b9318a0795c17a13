// The walk over both files for judging: a scanner takes fields out of bytes and the head of a node out of one view; it
// counts nothing, and hands nothing out.
#![tactic(auto)]

pub mod files;
mod heads;

ghost use Rattle.scans.specs.Scanning.{scanning};

use bits::Cursor;
use fields::{Field, Fields};

// The bytes, and how far the walk has come.
#[derive(Clone, Copy)]
pub struct Scanner<'a> {
    pub s: &'a [u8],
    pub cursor: Cursor,
}

// What a walk comes to: a value and the cursor past it, or the number of a refusal and the cursor where it is given.
pub type Scan = Result<(usize, Cursor), (u16, Cursor)>;

impl Fields for Scanner<'_> {
    ghost steps = { scanning };

    fn look(&self, w: usize) -> Field {
        match self.cursor.take(w, self.s) {
            Some((v, _)) => Ok(v),
            None => Err(3),
        }
    }

    fn pass(&mut self, w: usize, _v: u16) {
        self.cursor = Cursor {
            at: self.cursor.at + w,
        };
    }
}
