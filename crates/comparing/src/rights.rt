// What is asked of a right: that it is the empty mark, that it is not, that it is the same at every index.
ghost use Rattle.comparing.specs.Rights.{EmptyRight, Looks, LooksLevel};

use crate::{Behind, Fault, Found};
use instances::field;

// Whether the right at a bit is the empty mark.
fn is_empty(certificate: &[u8], right: usize) -> bool
    ensures { EmptyRight certificate.now right result }
{
    field(certificate, 1, right).value == 0
}

// A right is what the calls behind it ask for: the empty mark where they are judged too, and not the empty mark where they stay
// pending; else a number.
// A check that is met and reads nothing further ends at bit 0, as `Looks` has it: one type for all checks, so that `?` hands on any of them.
pub fn led(certificate: &[u8], number: u16, part: usize, right: usize, behind: Behind) -> Found
    ensures { Looks certificate.now right behind number part result }
{
    let met = match behind {
        Behind::Judged => is_empty(certificate, right),
        Behind::Pending => !is_empty(certificate, right),
        Behind::Nothing => true,
    };
    if met {
        return Ok(0);
    }
    Err(Fault { number, part })
}

// A right is empty or has a = 0 in every power, else a number.
pub fn level(book: &[u8], certificate: &[u8], number: u16, part: usize, right: usize) -> Found
    ensures { LooksLevel book.now certificate.now right number part result }
{
    let any = field(certificate, 1, right);
    if any.value == 0 || instances::level(book, certificate, any.at) {
        Ok(0)
    } else {
        Err(Fault { number, part })
    }
}
