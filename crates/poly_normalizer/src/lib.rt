// Normal forms of polynomials given by their coefficients of powers.
#![tactic(auto)]

ghost use Rattle.std.specs.Prelude.{◌≡◌, false, [], ◌∷◌};
ghost use Rattle.meaning.specs.Settings.{fits_width};
ghost use Rattle.meaning.specs.Conversions.{normal_box};
ghost use Rattle.meaning.specs.Calls.{in_out_number, convert_left};
ghost use Rattle.demand3.specs.Settings.{CallPasses};
ghost use Rattle.demand3.specs.Promises.{Normalised};
ghost use Rattle.answers.specs.Said.{said_number};
ghost use Rattle.settings.specs.Forms.{degrees_of};

use answers::Refusal;
use settings::Settings;

// The normal form of the polynomial whose coefficients of powers are `coeffs`: converted to falling factorials, then each coefficient taken modulo
// 2^(bitwidth - q), which is 0 where q is the width or more. It has the polynomial's value modulo 2^bitwidth at every whole-number point, and is the only
// normal form that has. `coeffs` and `out` have an entry for each cell of the box of degree max_degree over the support, first variable fastest; `coeffs` is
// not altered. Refused for 1, 2, 3, 5, 7, 8, 9; `out` is then as it was.
pub fn normalize_polynomial(
    coeffs: &[u64],
    settings: &Settings,
    out: &mut [u64],
) -> Result<(), Refusal>
    ensures says { let s = settings.now in said_number result ≡ in_out_number false s.total s.bitwidth s.support.now (degrees_of s) coeffs.now out.old }
    ensures leaves { let s = settings.now in out.new ≡ convert_left s.total s.bitwidth s.support.now (degrees_of s) coeffs.now out.old
        (normal_box s.bitwidth (degrees_of s) coeffs.now) }
    ensures normalises { let s = settings.now in Normalised (CallPasses 65536 false s.total (fits_width s.bitwidth) s.support.now (degrees_of s)
        (λ n. (coeffs.now, n) ∷ (out.old, n) ∷ []))
        s.bitwidth (degrees_of s) coeffs.now (said_number result) out.new }
{
    basis_transform::to_factorial_basis(coeffs, settings, out)?;
    let degrees = settings.degrees();
    box_rows::reduce(out, degrees.as_slice(), settings.bitwidth);
    Ok(())
}
