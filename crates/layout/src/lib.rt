// The two packed files: reading and writing; and a packed call.
#![tactic(auto)]

pub mod seeing;
pub mod walks;

ghost use Rattle.std.specs.Prelude.{◌≡◌, ◌≤◌, ◌*◌, ◌^◌, length};
ghost use Rattle.bits.specs.Packed.{bytes_for};
ghost use Rattle.patterns.specs.Reason.{certificate_place};
ghost use Rattle.answers.specs.Numbers.{w_of};
ghost use Rattle.layout.specs.Files.{ends_at};
ghost use Rattle.layout.specs.Openings.{walked_bits, sight, seen_bytes, seen_list, BookOpened, CertificateOpened, CallOpened, Beside};
ghost use Rattle.layout.specs.Answers.{listing_beside, writing_beside};
ghost use Rattle.layout.specs.Promises.{Answers, BookRead, BookWritten, CertificateRead, CertificateWritten};

use answers::{Answer, Refusal, W};
use fields::Walk;

// A good file: a number of it, its fields and its bits.
#[derive(Clone, Copy)]
pub struct Good {
    pub value: usize,
    pub fields: usize,
    pub bits: usize,
}

// What opening a file comes to.
pub type Opening = Result<Good, Refusal>;

// How many whole bytes some bits need.
fn bytes_for(bits: usize) -> usize
    ensures { result ≡ bytes_for bits }
{
    bits.div_ceil(8)
}

// Whether only zero bits follow a bit, up to the next whole byte.
fn ends(s: &[u8], bit: usize) -> bool
    requires { (bit ≤ 2 ^ 32) × (bit ≤ 8 * length s.now) }
    ensures { result ≡ ends_at s.now bit }
{
    if s.len() != (bit + 7) / 8 {
        return false;
    }
    let rest = bits::Cursor { at: bit };
    match rest.take(8 * s.len() - bit, s) {
        Some((v, _)) => v == 0,
        None => false,
    }
}

// What a walk over a file's bytes comes to, once the end of the file is looked at.
fn opened(s: &[u8], file: W, walk: Walk) -> Opening
    requires { (walked_bits walk ≤ 2 ^ 32) × (walked_bits walk ≤ 8 * length s.now) }
    ensures { sight result ≡ seen_bytes (w_of file) s.now walk }
{
    match walk {
        Err((m, c)) => Err(answers::carried(m, file, c.bit, 0)),
        Ok((value, c)) => {
            if ends(s, c.bit) {
                return Ok(Good {
                    value,
                    fields: c.n,
                    bits: c.bit,
                });
            }
            Err(answers::carried(7, file, c.bit, 0))
        }
    }
}

// What a walk over a list of fields comes to, once the end of the list is looked at.
fn opened_list(l: &[u16], file: W, walk: Walk) -> Opening
    ensures { sight result ≡ seen_list (w_of file) l.now walk }
{
    match walk {
        Err((m, c)) => Err(answers::carried(m, file, c.n, 0)),
        Ok((value, c)) => {
            if c.n == l.len() {
                return Ok(Good {
                    value,
                    fields: c.n,
                    bits: c.bit,
                });
            }
            Err(answers::carried(7, file, c.n, 0))
        }
    }
}

// Reads a book to its end; how many calls each rule has is noted.
pub fn open_book(s: &[u8], counts: &mut [u8]) -> Opening
    requires { (length s.now ≤ 16384) × (256 ≤ length counts.old) }
    ensures { BookOpened s.now result counts.new }
{
    let w = walks::book(false, s, &[], &mut [], &mut [], counts);
    opened(s, W::Book, w)
}

// Reads a book's bytes into a list of its fields.
pub fn read_book(book: &[u8], out: &mut [u16]) -> Answer
    ensures { BookRead book.now out.old result out.new }
{
    answers::check_length(book.len(), 16384, W::Book)?;
    let mut counts = [0u8; 256];
    let file = open_book(book, &mut counts)?;
    if file.fields > out.len() {
        return Err(answers::whole(8, W::Book));
    }
    let _again = walks::book(false, book, &[], out, &mut [], &mut counts);
    Ok(file.fields)
}

// Writes a list of a book's fields into its bytes.
pub fn write_book(fields: &[u16], out: &mut [u8]) -> Answer
    ensures { BookWritten fields.now out.old result out.new }
{
    let w = walks::book(true, &[], fields, &mut [], &mut [], &mut []);
    let file = opened_list(fields, W::Book, w)?;
    let n = bytes_for(file.bits);
    answers::check_length(n, 16384, W::Book)?;
    if n > out.len() {
        return Err(answers::whole(8, W::Book));
    }
    let _again = walks::book(true, &[], fields, &mut [], out, &mut []);
    Ok(n)
}

// Reads a certificate, beside its good book, to its end.
pub fn open_certificate(book: &[u8], counts: &[u8], s: &[u8]) -> Opening
    requires { Beside book.now counts.now × (length s.now ≤ 32768) }
    ensures { CertificateOpened book.now s.now result }
{
    let w = walks::certificate(false, book, counts, s, &[], &mut [], &mut []);
    opened(s, W::Certificate, w)
}

// Reads the bytes of a certificate, beside its good book, into a list of its fields.
fn list_certificate(book: &[u8], counts: &[u8], s: &[u8], out: &mut [u16]) -> Answer
    requires { Beside book.now counts.now × (length s.now ≤ 32768) }
    ensures { Answers certificate_place (listing_beside book.now s.now) out.old result out.new }
{
    let file = open_certificate(book, counts, s)?;
    if file.fields > out.len() {
        return Err(answers::whole(8, W::Certificate));
    }
    let _again = walks::certificate(false, book, counts, s, &[], out, &mut []);
    Ok(file.fields)
}

// Reads a certificate's bytes, with its book's, into a list of its fields.
pub fn read_certificate(book: &[u8], certificate: &[u8], out: &mut [u16]) -> Answer
    ensures { CertificateRead book.now certificate.now out.old result out.new }
{
    answers::check_length(book.len(), 16384, W::Book)?;
    answers::check_length(certificate.len(), 32768, W::Certificate)?;
    let mut counts = [0u8; 256];
    let file = open_book(book, &mut counts)?;
    list_certificate(book, &counts[..file.value], certificate, out)
}

// Writes a list of a certificate's fields, beside its good book, into its bytes.
fn pack_certificate(book: &[u8], counts: &[u8], fields: &[u16], out: &mut [u8]) -> Answer
    requires { Beside book.now counts.now }
    ensures { Answers certificate_place (writing_beside book.now fields.now) out.old result out.new }
{
    let w = walks::certificate(true, book, counts, &[], fields, &mut [], &mut []);
    let file = opened_list(fields, W::Certificate, w)?;
    let n = bytes_for(file.bits);
    answers::check_length(n, 32768, W::Certificate)?;
    if n > out.len() {
        return Err(answers::whole(8, W::Certificate));
    }
    let _again = walks::certificate(true, book, counts, &[], fields, &mut [], out);
    Ok(n)
}

// Writes a list of a certificate's fields, with its book's bytes, into its bytes.
pub fn write_certificate(book: &[u8], fields: &[u16], out: &mut [u8]) -> Answer
    ensures { CertificateWritten book.now fields.now out.old result out.new }
{
    answers::check_length(book.len(), 16384, W::Book)?;
    let mut counts = [0u8; 256];
    let file = open_book(book, &mut counts)?;
    pack_certificate(book, &counts[..file.value], fields, out)
}

// Reads a call, beside its good book, to its end; it may have any length.
pub fn open_call(book: &[u8], s: &[u8]) -> Opening
    ensures { CallOpened book.now s.now result }
{
    let w = walks::call(book, s, &[], &mut [], &mut []);
    opened(s, W::Call, w)
}
