// The datum of a form, moved: each variable replaced by itself plus an offset.
#![tactic(auto)]

ghost use Rattle.std.specs.Prelude.{◌≡◌, false, [], ◌∷◌, length};
ghost use Rattle.meaning.specs.Settings.{fits_width};
ghost use Rattle.meaning.specs.Calls.{move_number, move_left};
ghost use Rattle.demand3.specs.Settings.{CallPasses};
ghost use Rattle.demand3.specs.Promises.{DatumMoved};
ghost use Rattle.answers.specs.Said.{said_number};
ghost use Rattle.settings.specs.Forms.{degrees_of};

use answers::Refusal;
use settings::Settings;

// The normal form of the polynomial in falling factorials whose coefficients are `coeffs`, with each support variable replaced by itself plus its offset. Its
// value modulo 2^bitwidth at every whole-number point is the old one's at the moved point, and it is the only normal form with these values; `coeffs` need not
// be one. Offsets count modulo 2^bitwidth. `coeffs` and `out` have an entry for each cell of the box of degree max_degree over the support, first variable
// fastest, `offsets` one for each support variable; neither `coeffs` nor `offsets` is altered. Refused for 1, 2, 3, 5, 7, 8, 9; `out` is then as it was.
pub fn move_datum(
    coeffs: &[u64],
    settings: &Settings,
    offsets: &[u64],
    out: &mut [u64],
) -> Result<(), Refusal>
    ensures says { let s = settings.now in said_number result ≡ move_number s.total s.bitwidth s.support.now (degrees_of s) coeffs.now offsets.now out.old }
    ensures leaves { let s = settings.now in out.new ≡ move_left s.total s.bitwidth s.support.now (degrees_of s) coeffs.now offsets.now out.old }
    ensures moves { let s = settings.now in DatumMoved (CallPasses 65536 false s.total (fits_width s.bitwidth) s.support.now (degrees_of s)
        (λ n. (coeffs.now, n) ∷ (offsets.now, length s.support.now) ∷ (out.old, n) ∷ []))
        s.bitwidth (degrees_of s) coeffs.now offsets.now (said_number result) out.new }
{
    settings.check_tables(false, coeffs, out)?;
    if offsets.len() != settings.support.len() {
        return Err(Refusal::WrongLength);
    }
    let degrees = settings.degrees();
    tables::copy(coeffs, out);
    moves::move_all(out, degrees.as_slice(), offsets);
    box_rows::reduce(out, degrees.as_slice(), settings.bitwidth);
    Ok(())
}
