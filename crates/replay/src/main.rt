// Replays the Rust program's answers. Each line of standard input is a case, decimal numbers; the first one, OP, says which call it is: boxes.rt has 1 to 5,
// systems.rt 6 to 8, leaves.rt 21 to 33. For each the number of the answer and what it leaves are printed. The file `stdin` beside src/ has the cases,
// `stdout` what the Rust program answered (tests/oracle/run --sample conversions, recovery, systems and leaves print both; recovery's OP is raised by 3, the
// leaves' by 20). No heap, as in the library: text and tables lie in arrays, of which a part is lent.
#![tactic(auto)]

ghost use Rattle.std.specs.Prelude.{◌≤◌, IfOk, length};

mod boxes;
mod calls;
mod leaves;
mod print;
mod systems;
mod text;

use calls::{Call, System};
use std::io;
use std::io::{Read, Write};
use text::Line;

// The first variables, as many as a support may have.
const VARIABLES: [u64; 20] = [
    0, 1, 2, 3, 4, 5, 6, 7, 8, 9, 10, 11, 12, 13, 14, 15, 16, 17, 18, 19,
];

// Answers a case, whose first number names the call.
fn answer<W: Write>(sink: &mut W, numbers: &[u64; 128]) -> io::Result<()> {
    match Call::try_from(numbers[0]) {
        Ok(Call::Box(call)) => boxes::replay(sink, call, numbers),
        Ok(Call::System(System::Solve)) => systems::replay_solver(sink, numbers),
        Ok(Call::System(System::SolveFixed)) => systems::replay_fixed(sink, numbers),
        Ok(Call::System(System::Fit)) => systems::replay_fit(sink, numbers),
        Ok(Call::Leaf(leaf)) => {
            let answer = leaves::answer(leaf, numbers[1], numbers[2], numbers[3]);
            print::answer(sink, answer)?;
            print::line_end(sink)
        }
        Err(refusal) => {
            print::answer(sink, Err(refusal))?;
            print::line_end(sink)
        }
    }
}

// One byte of the text: a digit, the end of a line, or what parts two numbers. The line is lent: handed back in a `Result` its 128 numbers are cleared and
// copied for every byte, and reading takes half as long again.
fn read_byte<W: Write>(sink: &mut W, line: &mut Line, byte: u8) -> io::Result<()> {
    match byte {
        b'\n' => {
            *line = line.closed();
            answer(sink, &line.numbers)?;
            *line = Line::empty();
        }
        b'0'..=b'9' => *line = line.with_digit(byte),
        _ => *line = line.closed(),
    }
    Ok(())
}

// Reads a text of cases.
fn replay<W: Write>(sink: &mut W, text: &[u8]) -> io::Result<()> {
    let mut line = Line::empty();
    for byte in text {
        read_byte(sink, &mut line, *byte)?;
    }
    Ok(())
}

// Reads until the text is full or the source ends; how many bytes stand at its start.
fn read_full<R: Read>(source: &mut R, text: &mut [u8]) -> io::Result<usize>
    ensures { IfOk result (λ size. size ≤ length text.new) }
{
    let mut done = 0;
    // Each read decides how far a turn goes, so that no range has the turns. A `for` with a number of turns that no run uses up would be no plainer.
    while done < text.len() {
        let size = source.read(&mut text[done..])?;
        if size == 0 {
            break;
        }
        done += size;
    }
    Ok(done)
}

fn main(rt: HostRuntime) -> io::Result<()> {
    let mut text = [0; 65536];
    let mut source = rt.stdin();
    let size = read_full(&mut source, &mut text)?;
    let mut sink = rt.stdout();
    replay(&mut sink, &text[..size])
}
