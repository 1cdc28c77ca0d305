// Calls on what recovery, a conversion or the normaliser left. What the calls said is a struct (`lib` says why).
ghost use Rattle.std.specs.Prelude.{◌≡◌, ℕ, ◌%◌, ◌^◌, ◌<◌, List, ℤ, length};
ghost use Rattle.meaning.specs.Tables.{at};
ghost use Rattle.meaning.specs.Boxes.{cells};
ghost use Rattle.meaning.specs.Polynomials.{Term};
ghost use Rattle.meaning.specs.Replies.{accepted};
ghost use Rattle.demand3.specs.Words.{polynomial_value, PointOf, Agreeing, Coefficients};
ghost use Rattle.answers.specs.Said.{said, said_number, said_truth};
ghost use Rattle.settings.specs.Forms.{degrees_of};

use crate::TwoOutcomes;
use answers::Refusal;
use settings::Settings;

// What recovery, the value and the test of a normal form said.
#[derive(Clone, Copy, Debug, PartialEq, Eq)]
struct ValueOutcomes {
    recovered: Result<(), Refusal>,
    value: Result<u64, Refusal>,
    valid: Result<bool, Refusal>,
}

// The value of what recovery left is that of every polynomial within the box that agrees with the grid, at every whole-number point that has the lent
// coordinates modulo 2^bitwidth; and what it left is a normal form.
fn value_of_recovered(
    values: &[u64],
    settings: &Settings,
    point: &[u64],
    coeffs: &mut [u64],
) -> ValueOutcomes
    ensures value { let s = settings.now in said_number result.recovered ≡ 0 → length point.now ≡ length s.support.now
        → (p : List Term) → Agreeing s.bitwidth (degrees_of s) values.now p
        → (zs : List ℤ) → PointOf s.bitwidth (degrees_of s) point.now zs
        → said result.value ≡ accepted (polynomial_value s.bitwidth (degrees_of s) p zs) }
    ensures valid { said_number result.recovered ≡ 0 → said_truth result.valid ≡ accepted 1 }
{
    let recovered = multivar_poly_recovery::recover_multivar_poly(values, settings, coeffs);
    let value = poly::value(coeffs, settings, point);
    let valid = poly::is_valid(coeffs, settings);
    ValueOutcomes {
        recovered,
        value,
        valid,
    }
}

// The normaliser, given a polynomial's coefficients, leaves what recovery leaves, given its grid.
fn normalise_and_recover(
    coeffs: &[u64],
    values: &[u64],
    settings: &Settings,
    normal: &mut [u64],
    found: &mut [u64],
) -> TwoOutcomes
    ensures { let s = settings.now in (p : List Term) → Coefficients s.bitwidth (degrees_of s) p coeffs.now
        → Agreeing s.bitwidth (degrees_of s) values.now p
        → length normal.old ≡ cells (degrees_of s) → said_number result.second ≡ 0
        → (said_number result.first ≡ 0) × (normal.new ≡ found.new) }
{
    let first = poly_normalizer::normalize_polynomial(coeffs, settings, normal);
    let second = multivar_poly_recovery::recover_multivar_poly(values, settings, found);
    TwoOutcomes { first, second }
}

// From powers to falling factorials and back: the coefficients modulo 2^bitwidth.
fn there_and_back(
    coeffs: &[u64],
    settings: &Settings,
    there: &mut [u64],
    back: &mut [u64],
) -> TwoOutcomes
    ensures { let s = settings.now in said_number result.first ≡ 0 → said_number result.second ≡ 0
        → (n : ℕ) → n < cells (degrees_of s) → at back.new n ≡ at coeffs.now n % 2 ^ s.bitwidth }
{
    let first = basis_transform::to_factorial_basis(coeffs, settings, there);
    let second = basis_transform::to_monomial_basis(there, settings, back);
    TwoOutcomes { first, second }
}

// And the other way round.
fn back_and_there(
    coeffs: &[u64],
    settings: &Settings,
    back: &mut [u64],
    there: &mut [u64],
) -> TwoOutcomes
    ensures { let s = settings.now in said_number result.first ≡ 0 → said_number result.second ≡ 0
        → (n : ℕ) → n < cells (degrees_of s) → at there.new n ≡ at coeffs.now n % 2 ^ s.bitwidth }
{
    let first = basis_transform::to_monomial_basis(coeffs, settings, back);
    let second = basis_transform::to_factorial_basis(back, settings, there);
    TwoOutcomes { first, second }
}
