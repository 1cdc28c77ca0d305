// The database's calls: recovery and value on tables of bytes, eight to an entry, least first, at most 4,096 entries each.
#![tactic(auto)]

ghost use Rattle.std.specs.Prelude.{◌≡◌, true, false, ◌*◌, [], ◌∷◌};
ghost use Rattle.meaning.specs.Settings.{fits_width};
ghost use Rattle.demand3.specs.Settings.{CallPasses};
ghost use Rattle.demand3.specs.Promises.{Decides, Valued};
ghost use Rattle.answers.specs.Said.{said, said_number};
ghost use Rattle.byte_calls.specs.Bytes.{decoded};
ghost use Rattle.byte_calls.specs.Forms.{byte_degrees};
ghost use Rattle.byte_calls.specs.Calls.{bytes_recovery_number, bytes_recovery_left, bytes_value_reply};

mod checks;
mod codec;
pub mod fit;
mod held;
mod rooms;

use answers::Refusal;
pub use checks::ByteSettings;
use codec::MOST;

// Recovers the coefficients of the falling factorials from the values on the grid {0, .., max_degree} over the support variables, modulo 2^bitwidth.
// `values` has a value for each grid point and `out` gets a coefficient for each exponent list, first support variable fastest. Refused in the order 9 (the
// support's bytes), 1, 2, 3, 4, 5, 7, 8 (more than 4,096 cells), 9 (the other tables' bytes), when `out` is as it was, and then for 6, where no polynomial of
// any degree has the values; all bytes of `out` are then 0. `values` and the support are not altered.
pub fn recover(values: &[u8], settings: &ByteSettings, out: &mut [u8]) -> Result<(), Refusal>
    ensures says { let s = settings.now in said_number result ≡ bytes_recovery_number s.count s.total s.bitwidth s.support.now (byte_degrees s)
        values.now out.old }
    ensures leaves { let s = settings.now in out.new ≡ bytes_recovery_left s.count s.total s.bitwidth s.support.now (byte_degrees s)
        values.now out.old }
    ensures decides { let s = settings.now in Decides (CallPasses 4096 true s.total (fits_width s.bitwidth) (decoded s.support.now) (byte_degrees s)
        (λ n. (s.support.now, s.count * 8) ∷ (values.now, n * 8) ∷ (out.old, n * 8) ∷ []))
        s.bitwidth (byte_degrees s) (decoded values.now) (said_number result) (decoded out.new) }
{
    let mut places = [0u64; 20];
    let cells = settings.check(true, &mut places)?;
    if !codec::holds(values, cells) || !codec::holds(out, cells) {
        return Err(Refusal::WrongLength);
    }
    let asked = settings.on(&places[..settings.count as usize]);
    if cells <= 64 {
        return held::recover_in::<64>(values, &asked, cells as usize, out);
    }
    held::recover_in::<MOST>(values, &asked, cells as usize, out)
}

// The value of a box of coefficients at a point, modulo 2^bitwidth: the sum over the cells of the coefficient times the falling factorials of the coordinates
// to the cell's exponents. `coeffs` has a coefficient for each cell, `point` a coordinate for each support variable. Refused in the order 9 (the support's
// bytes), 1, 2, 3, 5, 7, 8 (more than 4,096 cells), 9 (the other tables' bytes). Nothing is altered.
pub fn value(coeffs: &[u8], settings: &ByteSettings, point: &[u8]) -> Result<u64, Refusal>
    ensures says { let s = settings.now in said result ≡ bytes_value_reply s.count s.total s.bitwidth s.support.now (byte_degrees s)
        coeffs.now point.now }
    ensures values { let s = settings.now in Valued (CallPasses 4096 false s.total (fits_width s.bitwidth) (decoded s.support.now) (byte_degrees s)
        (λ n. (s.support.now, s.count * 8) ∷ (coeffs.now, n * 8) ∷ (point.now, s.count * 8) ∷ []))
        s.bitwidth (byte_degrees s) (decoded coeffs.now) (decoded point.now) (said result) }
{
    let mut places = [0u64; 20];
    let cells = settings.check(false, &mut places)?;
    if !codec::holds(coeffs, cells) || !codec::holds(point, settings.count) {
        return Err(Refusal::WrongLength);
    }
    let asked = settings.on(&places[..settings.count as usize]);
    if cells <= 64 {
        return held::value_in::<64>(coeffs, &asked, cells as usize, point);
    }
    held::value_in::<MOST>(coeffs, &asked, cells as usize, point)
}
