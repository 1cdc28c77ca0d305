// Moves of the datum, and moves beside other calls. What the calls said is a struct (`lib` says why).
ghost use Rattle.std.specs.Prelude.{◌≡◌, ℕ, ◌+◌, ◌%◌, ◌^◌, ◌<◌, List, map, ℤ, pos, length};
ghost use Rattle.meaning.specs.Tables.{at};
ghost use Rattle.meaning.specs.Boxes.{cells, digits};
ghost use Rattle.meaning.specs.Datum.{moved_pointℤ};
ghost use Rattle.meaning.specs.Polynomials.{Term};
ghost use Rattle.demand3.specs.Words.{polynomial_value, PointOf, Agreeing};
ghost use Rattle.answers.specs.Said.{said_number};
ghost use Rattle.settings.specs.Forms.{degrees_of};

use crate::{ThreeOutcomes, TwoOutcomes};
use answers::Refusal;
use settings::Settings;

// Moving by `a` and then by `b` leaves what moving by `sums` does, which are their sums modulo 2^bitwidth.
fn move_twice(
    coeffs: &[u64],
    settings: &Settings,
    a: &[u64],
    b: &[u64],
    sums: &[u64],
    once: &mut [u64],
    twice: &mut [u64],
    both: &mut [u64],
) -> ThreeOutcomes
    ensures { let s = settings.now in said_number result.first ≡ 0 → said_number result.second ≡ 0 → said_number result.third ≡ 0
        → ((i : ℕ) → i < length s.support.now → at sums.now i % 2 ^ s.bitwidth ≡ (at a.now i + at b.now i) % 2 ^ s.bitwidth)
        → twice.new ≡ both.new }
{
    let first = datum::move_datum(coeffs, settings, a, once);
    let second = datum::move_datum(once, settings, b, twice);
    let third = datum::move_datum(coeffs, settings, sums, both);
    ThreeOutcomes {
        first,
        second,
        third,
    }
}

// Moving by offsets of zero modulo 2^bitwidth leaves what reduction does: `copy` holds the coefficients and is reduced.
fn move_nowhere(
    coeffs: &[u64],
    settings: &Settings,
    offsets: &[u64],
    out: &mut [u64],
    copy: &mut [u64],
) -> TwoOutcomes
    ensures { let s = settings.now in copy.old ≡ coeffs.now → said_number result.first ≡ 0 → said_number result.second ≡ 0
        → ((i : ℕ) → i < length s.support.now → at offsets.now i % 2 ^ s.bitwidth ≡ 0)
        → out.new ≡ copy.new }
{
    let first = datum::move_datum(coeffs, settings, offsets, out);
    let second = poly::reduce(copy, settings);
    TwoOutcomes { first, second }
}

// What three moves and two sums said.
#[derive(Clone, Copy, Debug, PartialEq, Eq)]
struct SumOutcomes {
    first: Result<(), Refusal>,
    second: Result<(), Refusal>,
    sum: Result<(), Refusal>,
    total: Result<(), Refusal>,
    moved: Result<(), Refusal>,
}

// The sum of two moved forms is the sum of the forms, moved.
fn move_sum(
    a: &[u64],
    b: &[u64],
    settings: &Settings,
    offsets: &[u64],
    x: &mut [u64],
    y: &mut [u64],
    summed: &mut [u64],
    whole: &mut [u64],
    shifted: &mut [u64],
) -> SumOutcomes
    ensures { said_number result.first ≡ 0 → said_number result.second ≡ 0 → said_number result.sum ≡ 0 → said_number result.total ≡ 0
        → said_number result.moved ≡ 0 → summed.new ≡ shifted.new }
{
    let first = datum::move_datum(a, settings, offsets, x);
    let second = datum::move_datum(b, settings, offsets, y);
    let sum = poly::sum(x, y, settings, summed);
    let total = poly::sum(a, b, settings, whole);
    let moved = datum::move_datum(whole, settings, offsets, shifted);
    SumOutcomes {
        first,
        second,
        sum,
        total,
        moved,
    }
}

// A recovered form, moved, is the form recovered from the values at the moved points: `readings` has them, of a polynomial that agrees with the first grid. The
// move and the second recovery are accepted where their tables have their lengths.
fn move_recovered(
    values: &[u64],
    settings: &Settings,
    offsets: &[u64],
    readings: &[u64],
    form: &mut [u64],
    moved: &mut [u64],
    found: &mut [u64],
) -> ThreeOutcomes
    ensures { let s = settings.now in let ds = degrees_of s in said_number result.first ≡ 0 → length offsets.now ≡ length s.support.now
        → length moved.old ≡ cells ds → length readings.now ≡ cells ds → length found.old ≡ cells ds
        → (p : List Term) → Agreeing s.bitwidth ds values.now p
        → (bs : List ℤ) → PointOf s.bitwidth ds offsets.now bs
        → ((n : ℕ) → n < cells ds
        → polynomial_value s.bitwidth ds p (moved_pointℤ (map pos (digits ds n)) bs) ≡ at readings.now n % 2 ^ s.bitwidth)
        → (said_number result.second ≡ 0) × (said_number result.third ≡ 0) × (moved.new ≡ found.new) }
{
    let first = multivar_poly_recovery::recover_multivar_poly(values, settings, form);
    let second = datum::move_datum(form, settings, offsets, moved);
    let third = multivar_poly_recovery::recover_multivar_poly(readings, settings, found);
    ThreeOutcomes {
        first,
        second,
        third,
    }
}
