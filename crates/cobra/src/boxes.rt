// Calls on boxes of coefficients and grids of values: the calls of `poly`, `sameness`, `datum`, `basis_transform`, `poly_normalizer` and `multivar_poly_recovery`.
// Tables and support are of u64, first support variable fastest; what a call does is said there.
ghost use Rattle.std.specs.Prelude.{◌≡◌, true, false, ◌^◌, [], ◌∷◌, length};
ghost use Rattle.meaning.specs.Settings.{cube, fits_width};
ghost use Rattle.meaning.specs.Conversions.{falling_box, power_box, normal_box};
ghost use Rattle.meaning.specs.Calls.{valid_reply, same_reply, value_reply, sum_number, sum_left, reduce_number, reduce_left, move_number, move_left, in_out_number, convert_left, recovery_number, recovery_left};
ghost use Rattle.meaning.specs.Replies.{told};
ghost use Rattle.meaning.specs.Singletons.{singleton_number, singleton_left};
ghost use Rattle.demand3.specs.Settings.{CallPasses};
ghost use Rattle.demand3.specs.Promises.{Judged, Compared, Valued, Summed, Reduced, DatumMoved, ToFalling, ToPowers, Normalised, Decides};
ghost use Rattle.settings.specs.Forms.{cube_form};

use settings::{Form, Settings};

// 1 at `value` where the box is a normal form, else 0.
#[unsafe(no_mangle)]
pub extern "C" fn cobra_box_is_valid(
    coeffs: &[u64],
    support: &[u64],
    total: u32,
    width: u32,
    degree: u8,
    value: &mut u64,
) -> u32
    ensures says { told result value.new ≡ valid_reply total width support.now (cube support.now degree)
        coeffs.now }
    ensures judges { Judged (CallPasses 65536 false total true support.now (cube support.now degree)
        (λ n. (coeffs.now, n) ∷ []))
        width (cube support.now degree) coeffs.now (told result value.new) }
{
    let settings = Settings {
        support,
        total,
        bitwidth: width,
        max_degree: degree,
    };
    answers::deliver_truth(poly::is_valid(coeffs, &settings), value)
}

// 1 at `value` where two forms are the same, that is, have equal totals, equal widths and equal values at every whole-number point, else 0.
#[unsafe(no_mangle)]
pub extern "C" fn cobra_box_same(
    a: &[u64],
    asupport: &[u64],
    atotal: u32,
    awidth: u32,
    adegree: u8,
    b: &[u64],
    bsupport: &[u64],
    btotal: u32,
    bwidth: u32,
    bdegree: u8,
    value: &mut u64,
) -> u32
    ensures says { told result value.new ≡ same_reply (cube_form atotal awidth asupport.now adegree a.now)
        (cube_form btotal bwidth bsupport.now bdegree b.now) }
    ensures compares { Compared (cube_form atotal awidth asupport.now adegree a.now)
        (cube_form btotal bwidth bsupport.now bdegree b.now) (told result value.new) }
{
    let first = Form {
        settings: Settings {
            support: asupport,
            total: atotal,
            bitwidth: awidth,
            max_degree: adegree,
        },
        coeffs: a,
    };
    let second = Form {
        settings: Settings {
            support: bsupport,
            total: btotal,
            bitwidth: bwidth,
            max_degree: bdegree,
        },
        coeffs: b,
    };
    answers::deliver_truth(sameness::same(&first, &second), value)
}

// The value of a box at a point.
#[unsafe(no_mangle)]
pub extern "C" fn cobra_box_value(
    coeffs: &[u64],
    support: &[u64],
    total: u32,
    width: u32,
    degree: u8,
    point: &[u64],
    value: &mut u64,
) -> u32
    ensures says { told result value.new ≡ value_reply total width support.now (cube support.now degree)
        coeffs.now point.now }
    ensures values { Valued (CallPasses 65536 false total (fits_width width) support.now (cube support.now degree)
        (λ n. (coeffs.now, n) ∷ (point.now, length support.now) ∷ []))
        width (cube support.now degree) coeffs.now point.now (told result value.new) }
{
    let settings = Settings {
        support,
        total,
        bitwidth: width,
        max_degree: degree,
    };
    answers::deliver(poly::value(coeffs, &settings, point), value)
}

// The sum of two boxes.
#[unsafe(no_mangle)]
pub extern "C" fn cobra_box_sum(
    a: &[u64],
    b: &[u64],
    support: &[u64],
    total: u32,
    width: u32,
    degree: u8,
    out: &mut [u64],
) -> u32
    ensures says { result ≡ sum_number total width support.now (cube support.now degree) a.now b.now
        out.old }
    ensures leaves { out.new ≡ sum_left total width support.now (cube support.now degree) a.now
        b.now out.old }
    ensures sums { Summed (CallPasses 65536 false total (fits_width width) support.now (cube support.now degree)
        (λ n. (a.now, n) ∷ (b.now, n) ∷ (out.old, n) ∷ []))
        width (cube support.now degree) a.now b.now result out.new }
{
    let settings = Settings {
        support,
        total,
        bitwidth: width,
        max_degree: degree,
    };
    answers::outcome_code(poly::sum(a, b, &settings, out))
}

// Each coefficient of a box modulo its bound, in place.
#[unsafe(no_mangle)]
pub extern "C" fn cobra_reduce(
    coeffs: &mut [u64],
    support: &[u64],
    total: u32,
    width: u32,
    degree: u8,
) -> u32
    ensures says { result ≡ reduce_number total width support.now (cube support.now degree) coeffs.old }
    ensures leaves { coeffs.new ≡ reduce_left total width support.now (cube support.now degree) coeffs.old }
    ensures reduces { Reduced (CallPasses 65536 false total (fits_width width) support.now (cube support.now degree)
        (λ n. (coeffs.old, n) ∷ []))
        width (cube support.now degree) coeffs.old result coeffs.new }
{
    let settings = Settings {
        support,
        total,
        bitwidth: width,
        max_degree: degree,
    };
    answers::outcome_code(poly::reduce(coeffs, &settings))
}

// The form with its datum moved.
#[unsafe(no_mangle)]
pub extern "C" fn cobra_move_datum(
    coeffs: &[u64],
    support: &[u64],
    total: u32,
    width: u32,
    degree: u8,
    offsets: &[u64],
    out: &mut [u64],
) -> u32
    ensures says { result ≡ move_number total width support.now (cube support.now degree) coeffs.now
        offsets.now out.old }
    ensures leaves { out.new ≡ move_left total width support.now (cube support.now degree) coeffs.now
        offsets.now out.old }
    ensures moves { DatumMoved (CallPasses 65536 false total (fits_width width) support.now (cube support.now degree)
        (λ n. (coeffs.now, n) ∷ (offsets.now, length support.now) ∷ (out.old, n) ∷ []))
        width (cube support.now degree) coeffs.now offsets.now result out.new }
{
    let settings = Settings {
        support,
        total,
        bitwidth: width,
        max_degree: degree,
    };
    answers::outcome_code(datum::move_datum(coeffs, &settings, offsets, out))
}

// From powers to falling factorials.
#[unsafe(no_mangle)]
pub extern "C" fn cobra_to_factorial_basis(
    coeffs: &[u64],
    support: &[u64],
    total: u32,
    width: u32,
    degree: u8,
    out: &mut [u64],
) -> u32
    ensures says { result ≡ in_out_number false total width support.now (cube support.now degree) coeffs.now
        out.old }
    ensures leaves { out.new ≡ convert_left total width support.now (cube support.now degree)
        coeffs.now out.old
        (falling_box (2 ^ width) (cube support.now degree) coeffs.now) }
    ensures converts { ToFalling (CallPasses 65536 false total (fits_width width) support.now (cube support.now degree)
        (λ n. (coeffs.now, n) ∷ (out.old, n) ∷ []))
        width (cube support.now degree) coeffs.now result out.new }
{
    let settings = Settings {
        support,
        total,
        bitwidth: width,
        max_degree: degree,
    };
    answers::outcome_code(basis_transform::to_factorial_basis(coeffs, &settings, out))
}

// From falling factorials to powers.
#[unsafe(no_mangle)]
pub extern "C" fn cobra_to_monomial_basis(
    coeffs: &[u64],
    support: &[u64],
    total: u32,
    width: u32,
    degree: u8,
    out: &mut [u64],
) -> u32
    ensures says { result ≡ in_out_number false total width support.now (cube support.now degree) coeffs.now
        out.old }
    ensures leaves { out.new ≡ convert_left total width support.now (cube support.now degree)
        coeffs.now out.old
        (power_box (2 ^ width) (cube support.now degree) coeffs.now) }
    ensures converts { ToPowers (CallPasses 65536 false total (fits_width width) support.now (cube support.now degree)
        (λ n. (coeffs.now, n) ∷ (out.old, n) ∷ []))
        width (cube support.now degree) coeffs.now result out.new }
{
    let settings = Settings {
        support,
        total,
        bitwidth: width,
        max_degree: degree,
    };
    answers::outcome_code(basis_transform::to_monomial_basis(coeffs, &settings, out))
}

// The normal form of a polynomial in powers.
#[unsafe(no_mangle)]
pub extern "C" fn cobra_normalize_polynomial(
    coeffs: &[u64],
    support: &[u64],
    total: u32,
    width: u32,
    degree: u8,
    out: &mut [u64],
) -> u32
    ensures says { result ≡ in_out_number false total width support.now (cube support.now degree) coeffs.now
        out.old }
    ensures leaves { out.new ≡ convert_left total width support.now (cube support.now degree)
        coeffs.now out.old
        (normal_box width (cube support.now degree) coeffs.now) }
    ensures normalises { Normalised (CallPasses 65536 false total (fits_width width) support.now (cube support.now degree)
        (λ n. (coeffs.now, n) ∷ (out.old, n) ∷ []))
        width (cube support.now degree) coeffs.now result out.new }
{
    let settings = Settings {
        support,
        total,
        bitwidth: width,
        max_degree: degree,
    };
    answers::outcome_code(poly_normalizer::normalize_polynomial(coeffs, &settings, out))
}

// Recovery from the values on a grid.
#[unsafe(no_mangle)]
pub extern "C" fn cobra_recover_multivar_poly(
    values: &[u64],
    support: &[u64],
    total: u32,
    width: u32,
    degree: u8,
    out: &mut [u64],
) -> u32
    ensures says { result ≡ recovery_number total width support.now (cube support.now degree) values.now
        out.old }
    ensures leaves { out.new ≡ recovery_left total width support.now (cube support.now degree)
        values.now out.old }
    ensures decides { Decides (CallPasses 65536 true total (fits_width width) support.now (cube support.now degree)
        (λ n. (values.now, n) ∷ (out.old, n) ∷ []))
        width (cube support.now degree) values.now result out.new }
{
    let settings = Settings {
        support,
        total,
        bitwidth: width,
        max_degree: degree,
    };
    answers::outcome_code(multivar_poly_recovery::recover_multivar_poly(values, &settings, out))
}

// Singleton powers of each variable alone.
#[unsafe(no_mangle)]
pub extern "C" fn cobra_recover_singleton_powers(
    values: &[u64],
    variables: u32,
    width: u32,
    out: &mut [u64],
) -> u32
    ensures says { result ≡ singleton_number variables width values.now out.old }
    ensures leaves { out.new ≡ singleton_left variables width values.now out.old }
{
    answers::outcome_code(singleton_power_recovery::recover_singleton_powers(
        values, variables, width, out,
    ))
}
