// A copier: it walks over fields, packed in bytes or listed as numbers, and puts each one that it passes into two outputs.
ghost use Rattle.std.specs.Prelude.{◌≡◌, ◌<◌, ◌≤◌, ◌^◌, set};
ghost use Rattle.fields.specs.Source.{listed_field};
ghost use Rattle.fields.specs.Copying.{copied};

use crate::{Field, Fields, Walker};

// The source, bytes and a list of which one is walked over; how far the walk has come; and the outputs.
#[derive(Drop)]
pub struct Copier<'a> {
    pub s: &'a [u8],
    pub l: &'a [u16],
    pub at: Walker,
    pub words: &'a mut [u16],
    pub bytes: &'a mut [u8],
}

// The number at a place, if the field there has that many bits.
pub fn listed_at(l: &[u16], w: usize, n: usize) -> Field
    requires { w ≤ 16 }
    ensures { result ≡ listed_field l.now w n }
{
    if n < l.len() {
        let v = l[n];
        if u64::from(v) < 1 << w {
            return Ok(v);
        }
        return Err(4);
    }
    Err(3)
}

// The number v put at a place, if there is one.
// Of a slice's `get_mut` a proof knows the length alone, and no element.
fn put_word(words: &mut [u16], n: usize, v: u16)
    ensures { words.new ≡ set words.old n v }
{
    if n < words.len() {
        words[n] = v;
    }
}

impl Copier<'_> {
    // Past a field of w bits with the value v, which is put into both outputs.
    pub fn put(&mut self, w: usize, v: u16)
        requires { (w ≤ 16) × (self.old.at.n < 2 ^ 32) × (self.old.at.bit < 2 ^ 32) }
        ensures { self.new ≡ copied w v self.old }
    {
        let at = self.at.bit;
        let n = self.at.n;
        put_word(self.words, n, v);
        let b = bits::Cursor { at };
        let _past = b.put(w, v, self.bytes);
        self.at = Walker {
            bit: at + w,
            n: n + 1,
            listed: self.at.listed,
        };
    }
}

impl Fields for Copier<'_> {
    ghost use Rattle.fields.specs.Copying.{copying};

    ghost steps = { copying };

    fn look(&self, w: usize) -> Field {
        let at = self.at.bit;
        let n = self.at.n;
        if w > 16 {
            return Err(3);
        }
        if n > 4294967295 {
            return Err(3);
        }
        if at > 4294967295 {
            return Err(3);
        }
        if self.at.listed {
            return listed_at(self.l, w, n);
        }
        let b = bits::Cursor { at };
        match b.take(w, self.s) {
            Some((v, _)) => Ok(v),
            None => Err(3),
        }
    }

    fn pass(&mut self, w: usize, v: u16) {
        self.put(w, v);
    }
}
