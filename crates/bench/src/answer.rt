// The answer to what was read: settings, then recovery, then the text.
ghost use Rattle.std.specs.Prelude.{◌≡◌, ◌≤◌, min, length, take, drop, replicate};
ghost use Rattle.meaning.specs.Tables.{at};
ghost use Rattle.meaning.specs.Boxes.{cells};
ghost use Rattle.meaning.specs.Calls.{reply};
ghost use Rattle.settings.specs.Forms.{degrees_of};
ghost use Rattle.answers.specs.Said.{said, said_number};
ghost use Rattle.bench_file.specs.Layout.{head_number};
ghost use Rattle.bench_file.specs.Printed.{printed, printed_size};
ghost use Rattle.bench_file.specs.Verdict.{narrowed, lowered};
ghost use Rattle.bench.specs.Answers.{asked_by, text_for, text_of, low_head, SaysText, LeavesText};

use answers::Refusal;
use bench_file::answer::{Cube, write_accepted, write_refused};
use bench_file::reader::{IllFormed, Reader};
use bench_file::verdict::{lower, narrow, verdict_of};
use multivar_poly_recovery::recover_multivar_poly;
use settings::Settings;

// The cells of the box, or the first cause in the settings.
fn box_cells(settings: &Settings) -> Result<u64, Refusal>
    ensures { said result ≡ reply (head_number (asked_by settings.now)) (cells (degrees_of settings.now)) }
{
    settings.check_within(
        settings::BYTE_LIMIT,
        true,
        settings::width_fits(settings.bitwidth),
    )
}

// Writes the number of a refusal, or the coefficients.
fn write_answer(
    outcome: Result<(), Refusal>,
    cube: Cube,
    coefficients: &[u64],
    out: &mut [u8],
) -> Option<usize>
    ensures says { result ≡ printed_size (text_for (said_number outcome) (replicate cube.variables cube.degree) coefficients.now) out.old }
    ensures leaves { out.new ≡ printed (text_for (said_number outcome) (replicate cube.variables cube.degree) coefficients.now) out.old }
{
    match outcome {
        Ok(()) => write_accepted(cube, coefficients, out),
        Err(refusal) => write_refused(u32::from(refusal), out),
    }
}

// Zeros for the values, or the coefficients, of the largest box. There is no heap: the room is an array. `byte_room` is the same for bytes: one function for
// both types would need a trait that gives their zero, and be no plainer.
pub(crate) fn cell_room() -> [u64; 4096]
    ensures size { 4096 ≡ length result }
    ensures zeros { result ≡ replicate 4096 0 }
{
    [0; 4096]
}

// Writes what is printed of an input whose first lines say these settings. `count` is the number of values, which stand in `values`.
fn answer_settings(
    reading: Result<(), IllFormed>,
    settings: &Settings,
    count: usize,
    values: &[u64],
    out: &mut [u8],
) -> Option<usize>
    requires few { length settings.now.support.now ≤ 20 }
    requires table { length values.now ≡ 4096 }
    ensures says { result ≡ printed_size (text_of reading (asked_by settings.now) count values.now) out.old }
    ensures leaves { out.new ≡ printed (text_of reading (asked_by settings.now) count values.now) out.old }
{
    let cells = box_cells(settings);
    let size = cells.unwrap_or(0) as usize;
    let mut room = cell_room();
    let coefficients = &mut room[..size];
    let recovered = recover_multivar_poly(&values[..size], settings, coefficients);
    let outcome = verdict_of(reading, cells.map(|_| ()), count == size, recovered);
    let cube = Cube {
        degree: settings.max_degree,
        variables: settings.support.len() as u8,
    };
    write_answer(outcome, cube, coefficients, out)
}

// The number of support variables, which is at most 20 where the first line is well-formed.
fn variables_of(count: u64) -> usize
    ensures { result ≡ min count 20 }
{
    count.min(20) as usize
}

// The settings that the numbers of the first lines say.
fn settings_of(head: &[u64; 24]) -> Settings
    ensures width { result.bitwidth ≡ narrowed (at head.now 0) }
    ensures total { result.total ≡ narrowed (at head.now 1) }
    ensures degree { result.max_degree ≡ lowered (at head.now 2) }
    ensures support { result.support.now ≡ take (min (at head.now 3) 20) (drop 4 head.now) }
{
    let end = variables_of(head[3]) + 4;
    Settings {
        support: &head[4..end],
        total: narrow(head[1]),
        bitwidth: narrow(head[0]),
        max_degree: lower(head[2]),
    }
}

// Writes what is printed of the input that the reader was fed, whose values stand in `values`.
pub(crate) fn answer_text(reader: Reader, values: &[u64], out: &mut [u8]) -> Option<usize>
    requires { length values.now ≡ 4096 }
    ensures says { SaysText reader values.now out.old result }
    ensures leaves { LeavesText reader values.now out.old out.new }
{
    let settings = settings_of(&reader.head);
    answer_settings(reader.reading(), &settings, reader.count, values, out)
}
