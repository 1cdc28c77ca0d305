// Conversions of coefficient boxes between powers and falling factorials, along every variable, by repeated synthetic division.
#![tactic(auto)]

ghost use Rattle.std.specs.Prelude.{◌≡◌, ◌^◌, false, [], ◌∷◌};
ghost use Rattle.meaning.specs.Settings.{fits_width};
ghost use Rattle.meaning.specs.Calls.{in_out_number, convert_left};
ghost use Rattle.meaning.specs.Conversions.{falling_box, power_box};
ghost use Rattle.demand3.specs.Settings.{CallPasses};
ghost use Rattle.demand3.specs.Promises.{ToFalling, ToPowers};
ghost use Rattle.answers.specs.Said.{said_number};
ghost use Rattle.settings.specs.Forms.{degrees_of};
ghost use Rattle.lines.specs.Transforms.{box_of};

mod boxes;

use answers::Refusal;
use lines::LineTransform;
use settings::Settings;

// A conversion, or its refusal. It takes what both calls below take, whose parameters are those of all calls on a box.
fn transform_basis<T: LineTransform>(
    transform: T,
    coeffs: &[u64],
    settings: &Settings,
    out: &mut [u64],
) -> Result<(), Refusal>
    ensures says { let s = settings.now in said_number result ≡ in_out_number false s.total s.bitwidth s.support.now (degrees_of s) coeffs.now out.old }
    ensures leaves { let s = settings.now in out.new ≡ convert_left s.total s.bitwidth s.support.now (degrees_of s) coeffs.now out.old
        (box_of (T.line transform) (2 ^ s.bitwidth) (degrees_of s) coeffs.now) }
{
    settings.check_tables(false, coeffs, out)?;
    let degrees = settings.degrees();
    boxes::convert_box(
        transform,
        settings.bitwidth,
        degrees.as_slice(),
        coeffs,
        out,
    );
    Ok(())
}

// From coefficients of powers to those of falling factorials, modulo 2^bitwidth: x^n is the sum of the Stirling numbers of the second kind times the
// falling factorials of x. `coeffs` and `out` have an entry for each cell of the box of degree max_degree over the support, first variable fastest.
// `out` gets the converted coefficients, each below 2^bitwidth; `coeffs` is not altered. Refused for 1, 2, 3, 5, 7, 8, 9; `out` is then as it was.
pub fn to_factorial_basis(
    coeffs: &[u64],
    settings: &Settings,
    out: &mut [u64],
) -> Result<(), Refusal>
    ensures says { let s = settings.now in said_number result ≡ in_out_number false s.total s.bitwidth s.support.now (degrees_of s) coeffs.now out.old }
    ensures leaves { let s = settings.now in out.new ≡ convert_left s.total s.bitwidth s.support.now (degrees_of s) coeffs.now out.old
        (falling_box (2 ^ s.bitwidth) (degrees_of s) coeffs.now) }
    ensures converts { let s = settings.now in ToFalling (CallPasses 65536 false s.total (fits_width s.bitwidth) s.support.now (degrees_of s)
        (λ n. (coeffs.now, n) ∷ (out.old, n) ∷ []))
        s.bitwidth (degrees_of s) coeffs.now (said_number result) out.new }
{
    transform_basis(lines::ToFalling, coeffs, settings, out)
}

// From coefficients of falling factorials to those of powers, by the signed Stirling numbers of the first kind; otherwise as above.
pub fn to_monomial_basis(
    coeffs: &[u64],
    settings: &Settings,
    out: &mut [u64],
) -> Result<(), Refusal>
    ensures says { let s = settings.now in said_number result ≡ in_out_number false s.total s.bitwidth s.support.now (degrees_of s) coeffs.now out.old }
    ensures leaves { let s = settings.now in out.new ≡ convert_left s.total s.bitwidth s.support.now (degrees_of s) coeffs.now out.old
        (power_box (2 ^ s.bitwidth) (degrees_of s) coeffs.now) }
    ensures converts { let s = settings.now in ToPowers (CallPasses 65536 false s.total (fits_width s.bitwidth) s.support.now (degrees_of s)
        (λ n. (coeffs.now, n) ∷ (out.old, n) ∷ []))
        s.bitwidth (degrees_of s) coeffs.now (said_number result) out.new }
{
    transform_basis(lines::ToPowers, coeffs, settings, out)
}
