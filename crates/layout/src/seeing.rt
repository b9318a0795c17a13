// A file as the judge needs it: walked by bits to its end, with nothing counted and nothing handed out.
ghost use Rattle.std.specs.Prelude.{◌≡◌, ◌≤◌, ◌*◌, ◌^◌, length};
ghost use Rattle.answers.specs.Numbers.{w_of};
ghost use Rattle.layout.specs.Openings.{Beside};
ghost use Rattle.layout.specs.Findings.{scanned_bits, finding, seen_to_end, BookSeen, CertificateSeen};

use crate::ends;
use answers::{Refusal, W};
use scans::Scan;

// A number of a good file; or its refusal.
pub type Finding = Result<usize, Refusal>;

// What a walk over a file's bits comes to, once the end of the file is looked at.
fn looked(s: &[u8], file: W, scan: Scan) -> Finding
    requires { (scanned_bits scan ≤ 2 ^ 32) × (scanned_bits scan ≤ 8 * length s.now) }
    ensures { finding result ≡ seen_to_end (w_of file) s.now scan }
{
    match scan {
        Err((m, c)) => Err(answers::carried(m, file, c.at, 0)),
        Ok((v, c)) => {
            if ends(s, c.at) {
                return Ok(v);
            }
            Err(answers::carried(7, file, c.at, 0))
        }
    }
}

// Walks a book to its end: how many rules it has. How many calls each has is noted.
pub fn see_book(s: &[u8], counts: &mut [u8]) -> Finding
    requires { 256 ≤ length counts.old }
    ensures { BookSeen s.now result counts.new }
{
    let scan = scans::files::book(s, counts);
    looked(s, W::Book, scan)
}

// Walks a certificate, beside its good book, to its end.
pub fn see_certificate(book: &[u8], counts: &[u8], s: &[u8]) -> Finding
    requires { Beside book.now counts.now }
    ensures { CertificateSeen book.now s.now result }
{
    let scan = scans::files::certificate(book, counts, s);
    looked(s, W::Certificate, scan)
}
