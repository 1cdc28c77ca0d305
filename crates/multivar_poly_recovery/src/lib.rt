// Recovery of a polynomial's coefficients from its values on a grid: Newton's differences, then each divided by the factorials of its exponents.
#![tactic(auto)]

ghost use Rattle.std.specs.Prelude.{◌≡◌, true, [], ◌∷◌};
ghost use Rattle.meaning.specs.Settings.{fits_width};
ghost use Rattle.meaning.specs.Calls.{recovery_number, recovery_left};
ghost use Rattle.demand3.specs.Settings.{CallPasses};
ghost use Rattle.demand3.specs.Promises.{Decides};
ghost use Rattle.answers.specs.Said.{said_number};
ghost use Rattle.settings.specs.Forms.{degrees_of};

mod extraction;
mod grid;
mod shifts;
mod units;

use answers::Refusal;
use settings::Settings;

// Recovers the coefficients of the falling factorials from the values on the grid {0, .., max_degree} over the support variables, modulo 2^bitwidth.
// `values` has a value for each grid point and `out` gets a coefficient for each exponent list, first support variable fastest; each coefficient is
// below 2^(bitwidth - q), q being the twos in the factorials of its exponents. Accepted exactly where some whole-number polynomial has the values, of
// any degree or with no exponent above max_degree: the two are the same. The answer has at every whole-number point the value of every polynomial
// with no exponent above max_degree that has them, and where max_degree is at least degree_cap - 1 of every polynomial that has them. Refused for 1,
// 2, 3, 4, 5, 7, 8, 9, when `out` is as it was, and for 6, when no polynomial of any degree has the values, so that no larger grid helps; `out` is
// then all zero. `values` is not altered.
pub fn recover_multivar_poly(
    values: &[u64],
    settings: &Settings,
    out: &mut [u64],
) -> Result<(), Refusal>
    ensures says { let s = settings.now in said_number result ≡ recovery_number s.total s.bitwidth s.support.now (degrees_of s) values.now out.old }
    ensures leaves { let s = settings.now in out.new ≡ recovery_left s.total s.bitwidth s.support.now (degrees_of s) values.now out.old }
    ensures decides { let s = settings.now in Decides (CallPasses 65536 true s.total (fits_width s.bitwidth) s.support.now (degrees_of s)
        (λ n. (values.now, n) ∷ (out.old, n) ∷ []))
        s.bitwidth (degrees_of s) values.now (said_number result) out.new }
{
    grid::recover_checked(values, settings, out)
}
