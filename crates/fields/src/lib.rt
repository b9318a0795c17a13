// Fields one behind the other: a trait for what hands them out, and a copier that takes them out of bytes or a list and
// puts each one that it passes into two outputs.
#![tactic(auto)]

pub mod copier;

ghost use Rattle.std.specs.Prelude.{◌≡◌, ◌<◌, ◌^◌, IfOk, Ok};
ghost use Rattle.fields.specs.Source.{start};
ghost use Rattle.fields.specs.Along.{Steps, Takes};

// How far a walk has come: the bits and the fields passed. The next field stands at bit `bit` of the bytes or, if the
// source is a list, at place `n` of the list.
// The flag belongs to the place, since `field_at`, `source` and `start`, of which theorems speak, have it there.
#[derive(Clone, Copy)]
pub struct Walker {
    pub bit: usize,
    pub n: usize,
    pub listed: bool,
}

impl Walker {
    // At a file's first field.
    pub fn first(listed: bool) -> Walker
        ensures { result ≡ start listed }
    {
        Walker {
            bit: 0,
            n: 0,
            listed,
        }
    }
}

// What stands at a place: a field's value, or the number of its refusal.
// A refusal is told by 01's number, here and in `Walk`, since that number is what `listed_field`, `look` and `tested` in specs/ tell.
pub type Field = Result<u16, u16>;

// What a walk comes to: a value and the walker past it, or the number of a refusal and the walker where it is given.
pub type Walk = Result<(usize, Walker), (u16, Walker)>;

// What hands out fields, one behind the other.
pub trait Fields {
    // What stands here for a field of a width, and what is left past it.
    ghost steps: { Steps Self };

    // The field of w bits that begins here.
    fn look(&self, w: usize) -> Field
        ensures found { result ≡ steps.at w self.now }
        ensures narrow { IfOk result (λ v. v < 2 ^ w) };

    // Past the field of w bits here, which has the value v.
    fn pass(&mut self, w: usize, v: u16)
        requires { steps.at w self.old ≡ Ok v }
        ensures { self.new ≡ steps.past w v self.old };

    // The field of w bits here, passed if it is at least `least` and below `end`; else it is refused with `number`.
    fn take(&mut self, w: usize, least: u16, end: u16, number: u16) -> Field
        ensures { Takes steps w least end number self.old result self.new }
    {
        let v = self.look(w)?;
        if v < least {
            return Err(number);
        }
        if v >= end {
            return Err(number);
        }
        self.pass(w, v);
        Ok(v)
    }
}
