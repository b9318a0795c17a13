// Reads a book and a certificate from standard input, judges them, and prints the verdict as one line.
#![tactic(auto)]

ghost use Rattle.std.specs.Prelude.{◌≡◌, ℕ, ◌<◌, List, length, take, OnOk, IfSome};
ghost use Rattle.std.specs.Counts.{IsPrefixLen};
ghost use Rattle.std.specs.Io.KnownBytes.{Appends, Consumes, IsAtEnd};
ghost use Rattle.verdicts.specs.Program.{judging_input};
ghost use Rattle.verdicts.specs.Printing.{line_of};

use std::io;
use std::io::{Read, Write};
use table::WORDS;

// The line that is printed for an input, in the first bytes of `out`; the answer is its length.
fn line_for(input: &[u8], out: &mut [u8; 91]) -> usize
    ensures counted { IsPrefixLen result out.new }
    ensures written { take result out.new ≡ line_of (judging_input input.now WORDS) }
{
    let mut work = [0u64; WORDS];
    let verdict = judging::judge_input(input, &mut work);
    verdicts::verdict_line(verdict, out)
}

// Reads until `buf` is full, the reader ends or a read fails. The answer is how many bytes it put at the start of `buf`, and
// the error of the read that failed: `read_exact` does not tell the number, and `read_to_end` needs a heap.
fn read_full<R: Read>(reader: &mut R, buf: &mut [u8]) -> (usize, io::Result<()>)
    ensures counted { IsPrefixLen result.0 buf.new }
    ensures taken { Consumes (R.remaining reader.old) (R.remaining reader.new) (take result.0 buf.new) }
    ensures ended { OnOk result.1 (result.0 < length buf.new → IsAtEnd (R.remaining reader.new)) }
{
    let mut done = 0;
    while done < buf.len() {
        match reader.read(&mut buf[done..]) {
            Ok(0) => return (done, Ok(())),
            Ok(n) => done += n,
            Err(e) => return (done, Err(e)),
        }
    }
    (done, Ok(()))
}

// How it went to read an input, and to write its line.
#[derive(Drop)]
struct Outcome {
    read: io::Result<()>,
    written: io::Result<()>,
}

// Reads an input and writes its line. 65,536 bytes are enough to tell an input that is too long. A read that fails counts as
// the end of the input.
fn answer<R: Read, W: Write>(reader: &mut R, writer: &mut W) -> Outcome
    ensures { (input : List ℕ) × Consumes (R.remaining reader.old) (R.remaining reader.new) input
        × OnOk result.read (IfSome (R.remaining reader.old) (λ xs. input ≡ take 65536 xs))
        × OnOk result.written (Appends (W.contents writer.old) (W.contents writer.new) (line_of (judging_input input WORDS))) }
{
    let mut input = [0u8; 65536];
    let (count, read) = read_full(reader, &mut input);
    let mut line = [0u8; 91];
    let length = line_for(&input[..count], &mut line);
    let written = writer.write_all(&line[..length]);
    Outcome { read, written }
}

// The status is 0 for every answer. One that could not be written is told on standard error.
fn main(rt: HostRuntime) {
    let outcome = answer(&mut rt.stdin(), &mut rt.stdout());
    if outcome.written.is_err() {
        let _told = rt.eprintln("judge: the answer could not be written");
    }
}
