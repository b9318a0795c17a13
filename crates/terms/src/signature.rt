// Where the arities of a book's symbols stand: in its bytes, or in its list of fields.
ghost use Rattle.std.specs.Prelude.{◌≡◌, ℕ, ◌<◌, ◌≤◌, ◌^◌, [], true, false};
ghost use Rattle.terms.specs.Arity.{number_at, arity_at, NibbleOf};

// What tells how many arguments a symbol takes, 16 where there is no such symbol.
// It is 16 and no Option, since `arity_at` and `arity_in` in specs/, of which theorems speak, have that number.
pub trait Signature: Copy {
    ghost arities: { Self → ℕ → ℕ };

    fn arity(self, f: u16) -> u16
        ensures { result ≡ arities self f };
}

// A book's bytes.
#[derive(Clone, Copy)]
pub struct Packed<'a> {
    pub book: &'a [u8],
}

// A book's list of fields.
#[derive(Clone, Copy)]
pub struct Listed<'a> {
    pub book: &'a [u16],
}

// The upper half of a byte, or the lower one where n is odd.
fn nibble(byte: u8, n: u16) -> u16
    ensures { NibbleOf byte n result }
{
    if n % 2 == 0 {
        byte as u16 / 16
    } else {
        byte as u16 % 16
    }
}

// The arity of a symbol of a packed book, 16 where there is no such symbol: its count is the first byte, and each arity half a byte.
pub fn arity_of(book: &[u8], f: u16) -> u16
    ensures { result ≡ arity_at book.now [] false f }
{
    let k = 1 + f as usize / 2;
    if k >= book.len() {
        return 16;
    }
    if f >= book[0] as u16 {
        return 16;
    }
    nibble(book[k], f)
}

// The number of w bits at a place of a list, or another where there is none.
fn number(l: &[u16], w: usize, n: usize, other: u16) -> u16
    requires { (w ≤ 16) × (n < 2 ^ 32) }
    ensures { (bit : ℕ) → bit < 2 ^ 32 → result ≡ number_at [] l.now w (record { bit = bit; n = n; listed = true }) other }
{
    fields::copier::listed_at(l, w, n).unwrap_or(other)
}

impl Signature for Packed<'_> {
    ghost arities = { λ b f. arity_at b.book.now [] false f };

    fn arity(self, f: u16) -> u16 {
        arity_of(self.book, f)
    }
}

impl Signature for Listed<'_> {
    ghost arities = { λ b f. arity_at [] b.book.now true f };

    fn arity(self, f: u16) -> u16 {
        if f >= number(self.book, 8, 0, 0) {
            return 16;
        }
        number(self.book, 4, 1 + f as usize, 16)
    }
}
