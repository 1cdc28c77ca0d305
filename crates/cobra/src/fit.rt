// The weighted fit on tables of u64. What the call does is said in `weighted_poly_fit`.
ghost use Rattle.std.specs.Prelude.{min};
ghost use Rattle.meaning.specs.Settings.{cube};
ghost use Rattle.meaning.specs.Fit.{fit_of};
ghost use Rattle.meaning.specs.Replies.{told};
ghost use Rattle.weighted_poly_fit.specs.Fits.{Called, Fits};

use room::sizes::FitSettings;

// Fits a polynomial to weighted targets; `value` gets degree_used.
#[unsafe(no_mangle)]
pub extern "C" fn cobra_recover_weighted_poly(
    weights: &[u64],
    targets: &[u64],
    support: &[u64],
    total: u32,
    width: u32,
    max_degree: u8,
    grid_degree: u8,
    matrix: &mut [u64],
    right: &mut [u64],
    out: &mut [u64],
    value: &mut u64,
) -> u32
    ensures calls { Called (fit_of total width support.now max_degree grid_degree weights.now targets.now
        matrix.old right.old out.old) matrix.new right.new out.new
        (told result value.new) }
    ensures fits { Fits width (cube support.now (min max_degree grid_degree)) (cube support.now grid_degree) max_degree
        weights.now targets.now result value.new out.new }
{
    let settings = FitSettings {
        support,
        total,
        bitwidth: width,
        max_degree,
        grid_degree,
    };
    answers::deliver(
        weighted_poly_fit::fit::recover_weighted_poly(
            weights, targets, &settings, matrix, right, out,
        ),
        value,
    )
}
