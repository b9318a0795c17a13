// Runs the packed vectors that standard input holds, and prints a line for each: its name, the answer, and the sum of
// what the call left in the memory lent to it.
#![tactic(auto)]

mod sums;

ghost use Rattle.std.specs.Prelude.{◌≤◌, length};
ghost use Rattle.std.specs.Counts.{IsPrefixLen};

use answers::{Answer, Refusal, Verdict};
use std::io::Read;
use sums::sum_of;

// What a vector asks for.
#[derive(Clone, Copy, PartialEq, Eq)]
enum Operation {
    Judge,
    JudgeInput,
    ReadBook,
    ReadCertificate,
    WriteBook,
    WriteCertificate,
    Covers,
    // A number of no operation: what `Covers` does, for a call of no bytes.
    Unknown,
}

// The operations by their numbers in a vector.
impl From<u8> for Operation {
    fn from(number: u8) -> Self {
        match number {
            0 => Operation::Judge,
            1 => Operation::JudgeInput,
            2 => Operation::ReadBook,
            3 => Operation::ReadCertificate,
            4 => Operation::WriteBook,
            5 => Operation::WriteCertificate,
            6 => Operation::Covers,
            _ => Operation::Unknown,
        }
    }
}

// What stands before a vector's name and its files: the operation, and the length of each part.
#[derive(Drop)]
struct Head {
    operation: Operation,
    name: u8,
    room: u16,
    first: u16,
    second: u16,
    third: u16,
}

// How many places are lent at most. What is lent holds sevens, or 0xABCD or 0xAB at each place, so that it shows what was written.
const PLACES: usize = 65536;

// Bytes for a file, which may be a list of 65,535 fields.
const FILE: usize = 131072;

// ---- what is read

// How many bytes a file of that many fields or bytes has.
fn file_length(length: u16, listed: bool) -> usize
    ensures { result ≤ 131070 }
{
    if listed {
        return 2 * (length as usize);
    }
    length as usize
}

// Reads the first n bytes of a part. What the input has no byte for stays as it was.
fn fill<R: Read>(input: &mut R, part: &mut [u8], n: usize)
    requires { n ≤ length part.old }
    ensures { IsPrefixLen n part.new }
{
    let _ = input.read_exact(&mut part[..n]);
}

// A number of two bytes, the high one first.
fn read_number<R: Read>(input: &mut R) -> u16 {
    let mut two = [0u8; 2];
    let _ = input.read_exact(&mut two);
    u16::from_be_bytes(two)
}

// The length of the third file, which only a question for a call has.
fn read_third<R: Read>(input: &mut R, operation: Operation) -> u16 {
    match operation {
        Operation::Covers => read_number(input),
        _ => 0,
    }
}

fn read_head<R: Read>(input: &mut R) -> Head {
    let mut head = [0u8; 8];
    let _ = input.read_exact(&mut head);
    let operation = Operation::from(head[0]);
    Head {
        operation,
        name: head[1],
        room: u16::from_be_bytes([head[2], head[3]]),
        first: u16::from_be_bytes([head[4], head[5]]),
        second: u16::from_be_bytes([head[6], head[7]]),
        third: read_third(input, operation),
    }
}

// The fields of a list, two bytes each; the answer is how many there are.
fn fields_of(list: &[u8], fields: &mut [u16]) -> usize
    ensures { IsPrefixLen result fields.new }
{
    let n = fields.len().min(list.len() / 2);
    for (field, pair) in fields.iter_mut().zip(list.chunks_exact(2)) {
        *field = u16::from_be_bytes([pair[0], pair[1]]);
    }
    n
}

// ---- a line; a write that fails is passed over

// Prints the name that comes next, and a space.
fn print_name<R: Read>(rt: &impl Print, input: &mut R, length: u8) {
    let mut name = [0u8; 256];
    let n = length as usize;
    fill(input, &mut name, n);
    let _ = rt.write_all(&name[..n]);
    let _ = rt.write_all(b" ");
}

// Prints a verdict, without the newline of its line.
fn print_verdict(rt: &impl Print, verdict: Verdict) {
    let mut line = [0u8; 91];
    let n = verdicts::verdict_line(verdict, &mut line);
    if n > 0 {
        let end = n - 1;
        let _ = rt.write_all(&line[..end]);
    }
}

// Prints an answer that is a number, behind the word for it, or a refusal.
fn print_answer(rt: &impl Print, word: &str, said: Result<usize, Refusal>) {
    match said {
        Ok(n) => {
            let _ = print!(rt; "{word} {n}");
        }
        Err(r) => {
            let _ = print!(rt; "{r}");
        }
    }
}

// ---- the operations

// Hands the fields of a list to a step that writes them.
fn write_fields<F: FnOnce(&[u16]) -> Answer>(list: &[u8], step: F) -> Answer
    requires { F.IsAlwaysCallable step }
{
    let mut fields = [0u16; PLACES];
    let n = fields_of(list, &mut fields);
    step(&fields[..n])
}

// Lends memory to a step that prints its answer, then prints the sum of what it left there, and ends the line.
fn lend<T: Copy + Into<u64>, F: FnOnce(&mut [T])>(rt: &impl Print, lent: &mut [T], step: F)
    requires { F.IsAlwaysCallable step }
{
    step(lent);
    let sum = sum_of(lent);
    let _ = println!(rt; " left {sum}");
}

// What is lent, of each kind. A function pays at its entry for every array in it, so each kind has one of its own, and `run` none.
fn lend_numbers<F: FnOnce(&mut [u64])>(rt: &impl Print, n: u16, step: F)
    requires { F.IsAlwaysCallable step }
{
    lend(rt, &mut [7u64; PLACES][..n as usize], step);
}

fn lend_fields<F: FnOnce(&mut [u16])>(rt: &impl Print, n: u16, step: F)
    requires { F.IsAlwaysCallable step }
{
    lend(rt, &mut [0xABCDu16; PLACES][..n as usize], step);
}

fn lend_bytes<F: FnOnce(&mut [u8])>(rt: &impl Print, n: u16, step: F)
    requires { F.IsAlwaysCallable step }
{
    lend(rt, &mut [0xABu8; PLACES][..n as usize], step);
}

fn run(
    rt: &impl Print,
    operation: Operation,
    room: u16,
    first: &[u8],
    second: &[u8],
    third: &[u8],
) {
    match operation {
        Operation::Judge => lend_numbers(rt, room, |work| {
            print_verdict(rt, judging::judge(first, second, work));
        }),
        Operation::JudgeInput => lend_numbers(rt, room, |work| {
            print_verdict(rt, judging::judge_input(first, work));
        }),
        Operation::ReadBook => lend_fields(rt, room, |out| {
            print_answer(rt, "filled", layout::read_book(first, out));
        }),
        Operation::ReadCertificate => lend_fields(rt, room, |out| {
            print_answer(rt, "filled", layout::read_certificate(first, second, out));
        }),
        Operation::WriteBook => lend_bytes(rt, room, |out| {
            print_answer(
                rt,
                "filled",
                write_fields(first, |fields| layout::write_book(fields, out)),
            );
        }),
        Operation::WriteCertificate => lend_bytes(rt, room, |out| {
            let said = write_fields(
                second,
                |fields| layout::write_certificate(first, fields, out),
            );
            print_answer(rt, "filled", said);
        }),
        Operation::Covers | Operation::Unknown => lend_numbers(rt, room, |work| {
            print_answer(rt, "covered", covers::covers(first, second, third, work));
        }),
    }
}

// Reads a vector, runs it and prints its line.
fn run_next<R: Read>(rt: &impl Print, input: &mut R) {
    let head = read_head(input);
    print_name(rt, input, head.name);
    let operation = head.operation;
    let n = file_length(head.first, operation == Operation::WriteBook);
    let m = file_length(head.second, operation == Operation::WriteCertificate);
    let mut first = [0u8; FILE];
    fill(input, &mut first, n);
    let mut second = [0u8; FILE];
    fill(input, &mut second, m);
    let k = file_length(head.third, false);
    let mut third = [0u8; FILE];
    fill(input, &mut third, k);
    run(
        rt,
        operation,
        head.room,
        &first[..n],
        &second[..m],
        &third[..k],
    );
}

fn main(rt: HostRuntime) {
    let mut input = rt.stdin();
    let count = read_number(&mut input);
    for _ in 0..count {
        run_next(&rt, &mut input);
    }
}
