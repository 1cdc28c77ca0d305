// Recovery on lent tables: settings and lengths, then differences, of the values in the high bits of their words, and extraction.
ghost use Rattle.std.specs.Prelude.{◌≡◌, ◌<◌, ◌≤◌, cond, length, if◌then◌else◌};
ghost use Rattle.meaning.specs.Tables.{tabulate};
ghost use Rattle.meaning.specs.Boxes.{cells};
ghost use Rattle.meaning.specs.Recovery.{accepts, answer};
ghost use Rattle.meaning.specs.Calls.{recovery_number, recovery_left};
ghost use Rattle.answers.specs.Said.{said_number};
ghost use Rattle.settings.specs.Forms.{degrees_of};

use crate::{extraction, shifts};
use answers::Refusal;
use lines::Differences;
use settings::Settings;

// The coefficients of the box of `degrees`, or 6 and zeros.
fn recover_from_grid(
    values: &[u64],
    degrees: &[u8],
    bitwidth: u32,
    out: &mut [u64],
) -> Result<(), Refusal>
    requires { (length values.now ≡ cells degrees.now) × (length out.old ≡ cells degrees.now) × (0 < bitwidth) × (bitwidth ≤ 64) }
    ensures says { said_number result ≡ (if accepts bitwidth degrees.now values.now then 0 else 6) }
    ensures leaves { out.new ≡ cond (accepts bitwidth degrees.now values.now)
        (answer bitwidth degrees.now values.now) (tabulate (cells degrees.now) (λ n. 0)) }
{
    let high = 64 - bitwidth;
    shifts::raise(values, out, high);
    lines::transform_all(Differences, out, degrees);
    shifts::lower(out, high);
    extraction::extract(out, degrees, bitwidth)
}

// Settings and lengths are checked, then the grid is recovered.
pub(crate) fn recover_checked(
    values: &[u64],
    settings: &Settings,
    out: &mut [u64],
) -> Result<(), Refusal>
    ensures says { let s = settings.now in said_number result ≡ recovery_number s.total s.bitwidth s.support.now (degrees_of s) values.now out.old }
    ensures leaves { let s = settings.now in out.new ≡ recovery_left s.total s.bitwidth s.support.now (degrees_of s) values.now out.old }
{
    settings.check_tables(true, values, out)?;
    let degrees = settings.degrees();
    recover_from_grid(values, degrees.as_slice(), settings.bitwidth, out)
}
