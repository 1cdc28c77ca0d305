// The bench program: reads a grid of values from standard input, and prints the coefficients of its polynomial or the number of a refusal.
// It only reads and writes: `bench_file` has the layout, `answer` the way from what was read to what is printed.
#![tactic(auto)]

ghost use Rattle.std.specs.Prelude.{length, true, ◌↔◌, ◌≡◌, ◌≢◌, ◌⊎◌, OnOk, IfOk, IsTrue, Err};
ghost use Rattle.std.specs.Io.KnownBytes.{IsAtEnd};
ghost use Rattle.std.specs.IoError.{error_kind};
ghost use Rattle.std.specs.declared.io.ErrorKind.{ErrorKind};
ghost use Rattle.bench.specs.declared.Failure.{Failure};
ghost use Rattle.bench.specs.Answers.{LedFrom};
ghost use Rattle.bench.specs.Endings.{IsDecided, size_of, Ended, Answered, SourceText, Printed};

mod answer;

use bench_file::reader::{Reader, Stage};
use std::error::Error;
use std::io::{ErrorKind, Read, Write};
use std::process::ExitCode;
use std::{fmt, io};

// Bytes that are read also where the first two lines are ill-formed, so that a program that writes a grid file is not cut off: no file with at most
// 4,096 values is longer. These are 85 of the first line, 421 of a second with 20 numbers, and 4,096 times 22.
const LONGEST_FILE: usize = 90618;

// What can fail.
#[derive(Clone, Copy, Debug, PartialEq, Eq)]
enum Failure {
    // The source could not be read to its end.
    NotRead,
    // Nobody reads the answer.
    NotWanted,
    // The answer could not be written.
    NotWritten,
}

impl fmt::Display for Failure {
    fn fmt<W: fmt::Write>(&self, f: &mut fmt::Formatter<W>) -> fmt::Result {
        f.write_str(match self {
            Failure::NotRead => "standard input could not be read to its end",
            Failure::NotWanted => "nobody reads the answer",
            Failure::NotWritten => "the answer could not be written",
        })
    }
}

impl Error for Failure {}

// What was read of a source.
#[derive(Clone, Copy, Debug, PartialEq, Eq)]
struct Input {
    reader: Reader,
    // Bytes of the longest file that are not read.
    left: usize,
}

impl Input {
    // Whether nothing that follows is wanted: the first two lines are ill-formed, and no bytes are left of the longest file.
    fn is_decided(&self) -> bool
        ensures { IsTrue result ↔ IsDecided self.now.reader self.now.left }
    {
        self.left == 0 && self.reader.stage == Stage::IllHead
    }
}

// Zeros, into which a piece of the input is read, or the answer is written. There is no heap: the room is an array.
fn byte_room<const N: usize>() -> [u8; N]
    ensures { N ≡ length result }
{
    [0; N]
}

// The room for the longest text: 4,096 lines of 12 exponents and a coefficient, after the line of 0 and their count.
const LONGEST_TEXT: usize = 1122347;

// Reads the source and feeds it to a reader, whose values go into the table: to its end, or until it is decided by its first two lines. A proved loop
// has to end, and nothing says that an input does, so there is a number of turns that no run uses up. `is_decided` tells which of the two it was.
fn read_input<R: Read>(source: &mut R, values: &mut [u64]) -> Result<Input, Failure>
    ensures led { IfOk result (λ i. LedFrom (R.remaining source.old) (R.remaining source.new) values.old i.reader values.new i.left) }
    ensures ends { IfOk result (λ i. IsAtEnd (R.remaining source.new) ⊎ IsDecided i.reader i.left) }
    ensures fails { result ≢ Err Failure.NotWanted }
{
    let mut piece = byte_room::<65536>();
    let mut input = Input {
        reader: Reader::new(),
        left: LONGEST_FILE,
    };
    for _ in 0..u64::MAX {
        if input.is_decided() {
            return Ok(input);
        }
        match source.read(&mut piece) {
            Ok(0) => return Ok(input),
            Ok(size) => {
                input.reader = input.reader.feed(&piece[..size], values);
                input.left = input.left.saturating_sub(size);
            }
            Err(_) => return Err(Failure::NotRead),
        }
    }
    Err(Failure::NotRead)
}

// How an input ended, with the size of what is printed of it.
#[derive(Clone, Copy, Debug, PartialEq, Eq)]
enum Ending {
    // At the end of the source.
    Whole(usize),
    // By the first two lines, which are ill-formed.
    IllHead(usize),
}

impl Ending {
    // The size of what is printed.
    fn size(&self) -> usize
        ensures { result ≡ size_of self.now }
    {
        match *self {
            Ending::Whole(size) => size,
            Ending::IllHead(size) => size,
        }
    }
}

// Reads the source and writes its answer to the buffer. Nothing is answered where a read failed.
fn answer_input<R: Read>(source: &mut R, out: &mut [u8]) -> Result<Ending, Failure>
    requires { length out.old ≡ LONGEST_TEXT }
    ensures answered { Answered result out.old out.new }
    ensures ends { IfOk result (λ e. Ended e (IsAtEnd (R.remaining source.new))) }
    ensures of_source { IfOk result (λ e. SourceText (R.remaining source.old) (size_of e) out.old out.new) }
{
    let mut values = answer::cell_room();
    let input = read_input(source, &mut values)?;
    let size = answer::answer_text(input.reader, &values, out).unwrap();
    if input.is_decided() {
        return Ok(Ending::IllHead(size));
    }
    Ok(Ending::Whole(size))
}

// Why a write failed. No `From`: a read that fails has the same type of error and is another failure.
fn failure_of(error: io::Error) -> Failure
    ensures wanted { (result ≡ Failure.NotWanted) ↔ (error_kind error ≡ ErrorKind.BrokenPipe) }
    ensures write { result ≢ Failure.NotRead }
{
    match error.kind() {
        ErrorKind::BrokenPipe => Failure::NotWanted,
        _ => Failure::NotWritten,
    }
}

// Reads the source and writes its answer to the sink, once.
fn answer_file<R: Read, W: Write>(source: &mut R, sink: &mut W) -> Result<(), Failure>
    ensures printed { OnOk result (Printed (R.remaining source.old) (W.contents sink.old) (W.contents sink.new)) }
    ensures kept { result ≡ Err Failure.NotRead → sink.new ≡ sink.old }
{
    let mut out = byte_room::<LONGEST_TEXT>();
    let size = answer_input(source, &mut out)?.size();
    sink.write_all(&out[..size]).map_err(failure_of)?;
    Ok(())
}

// What is said on standard error, and the exit status is then 1. Where nobody reads the answer nothing is said, and the status is 141, which shells give a
// program that a closed pipe ended.
fn report<E: Eprint>(rt: &E, failure: Failure) -> ExitCode {
    if failure == Failure::NotWanted {
        return ExitCode::from(141);
    }
    let _ = eprintln!(rt; "bench: {failure}");
    ExitCode::FAILURE
}

// Reads standard input and prints its answer.
fn main(rt: HostRuntime) -> ExitCode {
    let mut stdin = rt.stdin();
    let mut stdout = rt.stdout();
    match answer_file(&mut stdin, &mut stdout) {
        Ok(()) => ExitCode::SUCCESS,
        Err(failure) => report(&rt, failure),
    }
}
