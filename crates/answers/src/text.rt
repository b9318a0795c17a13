// A refusal and an acceptance as text, which is the line that the program prints for it without its newline.
ghost use Rattle.std.specs.Prelude.{Some};
ghost use Rattle.answers.specs.Text.{refusal_text, acceptance_text};

use crate::{Acceptance, Refusal, carried, w_number};
use std::error::Error;
use std::fmt;

impl fmt::Display for Refusal {
    ghost output = { λ r. Some (refusal_text r) };

    fn fmt<O: fmt::Write>(&self, f: &mut fmt::Formatter<O>) -> fmt::Result {
        let told = carried(self.number, self.w, self.a, self.b);
        let (number, w, a, b) = (told.number, w_number(told.w), told.a, told.b);
        write!(f, "refuse {number} {w} {a} {b}")
    }
}

impl Error for Refusal {}

impl fmt::Display for Acceptance {
    ghost output = { λ a. Some (acceptance_text a) };

    fn fmt<O: fmt::Write>(&self, f: &mut fmt::Formatter<O>) -> fmt::Result {
        let (line, k, alpha) = (self.line, self.k, self.alpha);
        write!(f, "accept {line} {k} {alpha}")
    }
}
