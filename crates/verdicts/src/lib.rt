// The line that the program prints for a verdict.
#![tactic(auto)]

ghost use Rattle.std.specs.Prelude.{◌≡◌, ◌+◌, ◌≤◌, length};
ghost use Rattle.patterns.specs.Judge.{refuse};
ghost use Rattle.answers.specs.Numbers.{paper_refusal, paper_verdict};
ghost use Rattle.verdicts.specs.Decimal.{decimal};
ghost use Rattle.verdicts.specs.Printing.{spaced, sentence, line_of, put_at, Prints};

use answers::{Refusal, Verdict};

// How many decimal digits a number has.
fn digits(n: usize) -> usize
    ensures { (result ≡ length (decimal n)) × (result ≤ 20) }
{
    match n.checked_ilog10() {
        Some(k) => k as usize + 1,
        None => 1,
    }
}

// A digit's byte.
fn digit(m: usize) -> u8
    requires { m ≤ 9 }
    ensures { result ≡ 48 + m }
{
    48 + m as u8
}

// A number's digits from a place on, the last digit first; the answer is the place behind them. `write!` to a slice does
// not say which bytes it left there, so it can't stand here.
fn put_number(out: &mut [u8], at: usize, n: usize) -> usize
    requires { at + length (decimal n) ≤ length out.old }
    ensures answered { result ≡ at + length (decimal n) }
    ensures filled { out.new ≡ put_at out.old at (decimal n) }
{
    let end = at + digits(n);
    let mut m = n;
    for k in (at..end).rev() {
        out[k] = digit(m % 10);
        m /= 10;
    }
    end
}

// How many bytes some numbers take, a space before each.
fn spaced_length(numbers: &[usize]) -> usize
    requires { length numbers.now ≤ 4 }
    ensures { (result ≡ length (spaced numbers.now)) × (result ≤ 84) }
{
    numbers.iter().map(|n| 1 + digits(*n)).sum()
}

// Numbers from a place on, a space before each; the answer is the place behind them.
fn put_spaced(out: &mut [u8], at: usize, numbers: &[usize]) -> usize
    requires { at + length (spaced numbers.now) ≤ length out.old }
    ensures answered { result ≡ at + length (spaced numbers.now) }
    ensures filled { out.new ≡ put_at out.old at (spaced numbers.now) }
{
    let mut k = at;
    for &n in numbers {
        out[k] = b' ';
        k = put_number(out, k + 1, n);
    }
    k
}

// A word at the front.
fn put_word(out: &mut [u8], word: &[u8])
    requires { length word.now ≤ length out.old }
    ensures { out.new ≡ put_at out.old 0 word.now }
{
    out[..word.len()].copy_from_slice(word);
}

// A word and numbers as one line, where it fits.
fn put_sentence(word: &[u8], numbers: &[usize], out: &mut [u8]) -> usize
    requires { (length word.now ≤ 6) × (length numbers.now ≤ 4) }
    ensures { Prints (sentence word.now numbers.now) out.old result out.new }
{
    let n = word.len() + spaced_length(numbers) + 1;
    if n > out.len() {
        return 0;
    }
    put_word(out, word);
    let end = put_spaced(out, word.len(), numbers);
    out[end] = b'\n';
    n
}

// The line of a refusal: its number chooses which of A and B are told. `answers::carried` chooses alike, for a refusal; 01 names the match for both.
fn refusal_line(refusal: Refusal, out: &mut [u8]) -> usize
    ensures { Prints (line_of (refuse (paper_refusal refusal))) out.old result out.new }
{
    let number = refusal.number as usize;
    let w = answers::w_number(refusal.w);
    match number {
        3..=7 => put_sentence(b"refuse", &[number, w, refusal.a, 0], out),
        9..=16 => put_sentence(b"refuse", &[number, w, refusal.a, refusal.b], out),
        _ => put_sentence(b"refuse", &[number, w, 0, 0], out),
    }
}

// The line of a verdict in the first places of `out`, and its length; where it does not fit, 0 and nothing is written. Lent bytes and
// their count, since its promise (`Prints`) speaks of them, and there is no heap for a String.
pub fn verdict_line(v: Verdict, out: &mut [u8]) -> usize
    ensures { Prints (line_of (paper_verdict v)) out.old result out.new }
{
    match v {
        Ok(a) => put_sentence(b"accept", &[a.line, a.k, a.alpha], out),
        Err(refusal) => refusal_line(refusal, out),
    }
}
