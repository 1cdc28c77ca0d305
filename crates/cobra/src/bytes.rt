// The database's calls: tables and support cross as bytes, eight to an entry, least first, at most 4,096 entries each. The support's count crosses as a
// number. What a call does is said in `byte_calls`.
ghost use Rattle.std.specs.Prelude.{◌≡◌, true, false, ◌*◌, min, [], ◌∷◌};
ghost use Rattle.meaning.specs.Settings.{cube, fits_width};
ghost use Rattle.meaning.specs.Replies.{told};
ghost use Rattle.demand3.specs.Settings.{CallPasses};
ghost use Rattle.demand3.specs.Promises.{Decides, Valued};
ghost use Rattle.weighted_poly_fit.specs.Fits.{Fits};
ghost use Rattle.byte_calls.specs.Bytes.{decoded};
ghost use Rattle.byte_calls.specs.Calls.{bytes_recovery_number, bytes_recovery_left, bytes_value_reply, fit_held, fit_bytes_reply, fit_bytes_left};

use byte_calls::ByteSettings;
use byte_calls::fit::ByteFitSettings;

// Recovery from the values on a grid; 6 where no polynomial of any degree has them.
#[unsafe(no_mangle)]
pub extern "C" fn cobra_recover(
    values: &[u8],
    support: &[u8],
    count: u64,
    total: u32,
    width: u32,
    degree: u8,
    out: &mut [u8],
) -> u32
    ensures says { result ≡ bytes_recovery_number count total width support.now (cube (decoded support.now) degree)
        values.now out.old }
    ensures leaves { out.new ≡ bytes_recovery_left count total width support.now (cube (decoded support.now) degree)
        values.now out.old }
    ensures decides { Decides (CallPasses 4096 true total (fits_width width) (decoded support.now)
        (cube (decoded support.now) degree)
        (λ n. (support.now, count * 8) ∷ (values.now, n * 8) ∷ (out.old, n * 8) ∷ []))
        width (cube (decoded support.now) degree) (decoded values.now) result (decoded out.new) }
{
    let settings = ByteSettings {
        support,
        count,
        total,
        bitwidth: width,
        max_degree: degree,
    };
    answers::outcome_code(byte_calls::recover(values, &settings, out))
}

// The value of a box at a point.
#[unsafe(no_mangle)]
pub extern "C" fn cobra_value(
    coeffs: &[u8],
    support: &[u8],
    count: u64,
    total: u32,
    width: u32,
    degree: u8,
    point: &[u8],
    value: &mut u64,
) -> u32
    ensures says { told result value.new ≡ bytes_value_reply count total width support.now
        (cube (decoded support.now) degree) coeffs.now point.now }
    ensures values { Valued (CallPasses 4096 false total (fits_width width) (decoded support.now)
        (cube (decoded support.now) degree)
        (λ n. (support.now, count * 8) ∷ (coeffs.now, n * 8) ∷ (point.now, count * 8) ∷ []))
        width (cube (decoded support.now) degree) (decoded coeffs.now) (decoded point.now) (told result
        value.new) }
{
    let settings = ByteSettings {
        support,
        count,
        total,
        bitwidth: width,
        max_degree: degree,
    };
    answers::deliver(byte_calls::value(coeffs, &settings, point), value)
}

// Fits a polynomial to weighted targets; `degree_used` gets the largest total degree among the coefficients that are not 0.
#[unsafe(no_mangle)]
pub extern "C" fn cobra_fit(
    weights: &[u8],
    targets: &[u8],
    support: &[u8],
    count: u64,
    total: u32,
    width: u32,
    max_degree: u8,
    grid_degree: u8,
    out: &mut [u8],
    degree_used: &mut u64,
) -> u32
    ensures says { told result degree_used.new ≡ fit_bytes_reply count support.now weights.now
        targets.now out.old
        (fit_held total width support.now max_degree grid_degree weights.now targets.now) }
    ensures leaves { out.new ≡ fit_bytes_left count support.now weights.now targets.now
        out.old
        (fit_held total width support.now max_degree grid_degree weights.now targets.now) }
    ensures fits { Fits width (cube (decoded support.now) (min max_degree grid_degree)) (cube (decoded
        support.now) grid_degree)
        max_degree (decoded weights.now) (decoded targets.now) result degree_used.new (decoded out.new) }
{
    let settings = ByteFitSettings {
        support,
        count,
        total,
        bitwidth: width,
        max_degree,
        grid_degree,
    };
    answers::deliver(
        byte_calls::fit::fit(weights, targets, &settings, out),
        degree_used,
    )
}
