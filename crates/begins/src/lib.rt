// Where rules, lines and uses begin: the rules of a book noted in the work table, and a use read with what is noted there.
#![tactic(auto)]

ghost use Rattle.std.specs.Prelude.{◌≡◌, ◌+◌, ◌≤◌, ◌<◌, length, get_or};
ghost use Rattle.table.specs.Places.{WORDS, ROWS, EMPTY};
ghost use Rattle.begins.specs.Placed.{Passes, PassesRule, PassesRight, NotesRules, Indexes};
ghost use Rattle.begins.specs.Known.{ReadsUse};

use instances::field;
use table::{LEFTS, RIGHTS, RULES, USED};

// Both files and the work table are lent as slices of their own, here and in the crates above. A struct of both files was tried: a clause
// has to say `files.entry.book.now` of it, which is longer than what it saves. A struct around the table, whose invariant is that the
// table has room, was tried too: where it is made, it is no longer known what was left in the slice.

// A use that was read: where both sides of its claim lie, its index pair, and the bit behind it.
#[derive(Clone, Copy)]
pub struct Instance {
    pub left: usize,
    pub right: usize,
    pub i: u16,
    pub j: u16,
    pub end: usize,
}

// Where the n terms at a bit end.
fn pass_terms(book: &[u8], s: &[u8], at: usize, n: usize) -> usize
    ensures { Passes book.now s.now at n result }
{
    let mut end = at;
    for _ in 0..n {
        end = instances::skip(book, s, end);
    }
    end
}

// Where the rule at a bit ends.
fn pass_rule(book: &[u8], at: usize) -> usize
    ensures { PassesRule book.now at result }
{
    let calls = field(book, 4, at);
    pass_terms(book, book, calls.at, calls.value as usize + 1)
}

// The begins of the n rules at a bit, noted from word k on.
fn note_rules(book: &[u8], w: &mut [u64], at: usize, k: usize, n: usize)
    requires { (k + n ≤ ROWS) × (WORDS ≤ length w.old) }
    ensures { NotesRules book.now at k n w.old w.new }
{
    let mut next = at;
    for row in k..k + n {
        w[row] = next as u64;
        next = pass_rule(book, next);
    }
}

// The begins of the book's rules, noted from word 0 on.
pub fn index_rules(book: &[u8], w: &mut [u64])
    requires { WORDS ≤ length w.old }
    ensures { Indexes book.now w.old w.new }
{
    let symbols = field(book, 8, 0);
    let n = symbols.value as usize;
    let rules = field(book, 8, 8 + 4 * n);
    let m = rules.value as usize;
    note_rules(book, w, rules.at, RULES, m);
}

// Where what stands right of the arrow ends.
pub fn pass_right(book: &[u8], certificate: &[u8], at: usize) -> usize
    ensures { PassesRight book.now certificate.now at result }
{
    let any = field(certificate, 1, at);
    if any.value == 0 {
        any.at
    } else {
        instances::skip(book, certificate, any.at)
    }
}

// A bit offset that was noted.
pub fn noted(w: &[u64], k: usize) -> usize
    requires { (k < EMPTY) × (WORDS ≤ length w.now) }
    ensures { result ≡ get_or w.now k 0 }
{
    w[k] as usize
}

// The use at a bit; its filling is indexed.
pub fn read_use(book: &[u8], certificate: &[u8], w: &mut [u64], at: usize) -> Instance
    requires { WORDS ≤ length w.old }
    ensures { ReadsUse book.now certificate.now at w.old w.new result }
{
    let line = field(certificate, 8, at);
    let k = line.value as usize;
    let i = field(certificate, 12, line.at);
    let j = field(certificate, 12, i.at);
    let left = noted(w, LEFTS + k);
    let right = noted(w, RIGHTS + k);
    let end = instances::fillings::list_filling(book, certificate, w, USED, j.at);
    Instance {
        left,
        right,
        i: i.value,
        j: j.value,
        end,
    }
}
