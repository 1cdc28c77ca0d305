// Boxes of coefficients: validity, value at a point, sum, reduction.
#![tactic(auto)]

ghost use Rattle.std.specs.Prelude.{◌≡◌, true, false, [], ◌∷◌, length};
ghost use Rattle.meaning.specs.Settings.{fits_width};
ghost use Rattle.meaning.specs.Calls.{valid_reply, value_reply, sum_number, sum_left, reduce_number, reduce_left};
ghost use Rattle.demand3.specs.Settings.{CallPasses};
ghost use Rattle.demand3.specs.Promises.{Valued, Judged, Summed, Reduced};
ghost use Rattle.answers.specs.Said.{said, said_number, said_truth};
ghost use Rattle.settings.specs.Forms.{degrees_of};

mod cells;
mod rooms;

use answers::Refusal;
use settings::Settings;

// Whether a box of coefficients is a normal form: the width fits and every coefficient, read whole, is below 2^(width - q), q being the twos in the
// factorials of its exponents, so that it is 0 where q is the width or more. A bad width is a no. Refused for 1, 2, 5, 7, 8, and 9 where there is not
// one coefficient for each cell. Nothing is altered.
pub fn is_valid(coeffs: &[u64], settings: &Settings) -> Result<bool, Refusal>
    ensures says { let s = settings.now in said_truth result ≡ valid_reply s.total s.bitwidth s.support.now (degrees_of s) coeffs.now }
    ensures judges { let s = settings.now in Judged (CallPasses 65536 false s.total true s.support.now (degrees_of s) (λ n. (coeffs.now, n) ∷ []))
        s.bitwidth (degrees_of s) coeffs.now (said_truth result) }
{
    let count = settings.check_within(settings::TABLE_LIMIT, false, true)?;
    if coeffs.len() as u64 != count {
        return Err(Refusal::WrongLength);
    }
    if !settings::width_fits(settings.bitwidth) {
        return Ok(false);
    }
    let degrees = settings.degrees();
    Ok(box_rows::bounded(coeffs, degrees.as_slice(), settings.bitwidth))
}

// The value of a box of coefficients at a point, modulo 2^bitwidth: the sum over the cells of the coefficient times the falling factorials of the
// coordinates to the cell's exponents. Refused for 1, 2, 3, 5, 7, 8, and 9 where there is not one coefficient for each cell and one coordinate for each
// support variable. Nothing is altered.
pub fn value(coeffs: &[u64], settings: &Settings, point: &[u64]) -> Result<u64, Refusal>
    ensures says { let s = settings.now in said result ≡ value_reply s.total s.bitwidth s.support.now (degrees_of s) coeffs.now point.now }
    ensures values { let s = settings.now in Valued (CallPasses 65536 false s.total (fits_width s.bitwidth) s.support.now (degrees_of s)
        (λ n. (coeffs.now, n) ∷ (point.now, length s.support.now) ∷ []))
        s.bitwidth (degrees_of s) coeffs.now point.now (said result) }
{
    let count = settings.check(false)?;
    if coeffs.len() as u64 != count {
        return Err(Refusal::WrongLength);
    }
    if point.len() != settings.support.len() {
        return Err(Refusal::WrongLength);
    }
    let degrees = settings.degrees();
    let size = settings.max_degree as usize + 1;
    Ok(rooms::value_at(coeffs, degrees.as_slice(), point, size, settings.bitwidth))
}

// Fills `out` with the sum of two boxes of coefficients of the same settings, cell by cell, each kept to bitwidth - q bits, 0 where q is the width or more.
// Refused for 1, 2, 3, 5, 7, 8, and 9 where a table does not have an entry for each cell; `out` is then as it was. `a` and `b` are not altered.
pub fn sum(a: &[u64], b: &[u64], settings: &Settings, out: &mut [u64]) -> Result<(), Refusal>
    ensures says { let s = settings.now in said_number result ≡ sum_number s.total s.bitwidth s.support.now (degrees_of s) a.now b.now out.old }
    ensures leaves { let s = settings.now in out.new ≡ sum_left s.total s.bitwidth s.support.now (degrees_of s) a.now b.now out.old }
    ensures sums { let s = settings.now in Summed (CallPasses 65536 false s.total (fits_width s.bitwidth) s.support.now (degrees_of s)
        (λ n. (a.now, n) ∷ (b.now, n) ∷ (out.old, n) ∷ []))
        s.bitwidth (degrees_of s) a.now b.now (said_number result) out.new }
{
    let count = settings.check(false)?;
    if a.len() as u64 != count {
        return Err(Refusal::WrongLength);
    }
    if b.len() as u64 != count {
        return Err(Refusal::WrongLength);
    }
    if out.len() as u64 != count {
        return Err(Refusal::WrongLength);
    }
    let degrees = settings.degrees();
    box_rows::sum(a, b, degrees.as_slice(), settings.bitwidth, out);
    Ok(())
}

// Takes each coefficient of a box modulo its bound 2^(bitwidth - q), in place: the polynomial in falling factorials keeps its value, modulo 2^bitwidth, at
// every whole-number point. Refused for 1, 2, 3, 5, 7, 8, 9; the box is then as it was.
pub fn reduce(coeffs: &mut [u64], settings: &Settings) -> Result<(), Refusal>
    ensures says { let s = settings.now in said_number result ≡ reduce_number s.total s.bitwidth s.support.now (degrees_of s) coeffs.old }
    ensures leaves { let s = settings.now in coeffs.new ≡ reduce_left s.total s.bitwidth s.support.now (degrees_of s) coeffs.old }
    ensures reduces { let s = settings.now in Reduced (CallPasses 65536 false s.total (fits_width s.bitwidth) s.support.now (degrees_of s)
        (λ n. (coeffs.old, n) ∷ []))
        s.bitwidth (degrees_of s) coeffs.old (said_number result) coeffs.new }
{
    let count = settings.check(false)?;
    if coeffs.len() as u64 != count {
        return Err(Refusal::WrongLength);
    }
    let degrees = settings.degrees();
    box_rows::reduce(coeffs, degrees.as_slice(), settings.bitwidth);
    Ok(())
}
