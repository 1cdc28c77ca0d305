// Recovery of several grids. What the calls said is a struct (`lib` says why).
ghost use Rattle.std.specs.Prelude.{◌≡◌, true, [], ◌∷◌, length};
ghost use Rattle.meaning.specs.Boxes.{cells};
ghost use Rattle.meaning.specs.Settings.{cube, fits_width};
ghost use Rattle.demand3.specs.Words.{GridSum, Contains};
ghost use Rattle.demand3.specs.Settings.{CallPasses};
ghost use Rattle.answers.specs.Said.{said_number};
ghost use Rattle.settings.specs.Forms.{degrees_of};

use crate::TwoOutcomes;
use answers::Refusal;
use settings::Settings;

// What three recoveries and a sum said.
#[derive(Clone, Copy, Debug, PartialEq, Eq)]
struct SumOutcomes {
    first: Result<(), Refusal>,
    second: Result<(), Refusal>,
    whole: Result<(), Refusal>,
    sum: Result<(), Refusal>,
}

// Where two grids are accepted, so is their sum, and its answer is the sum of their answers: `u` and `v` are recovered to `a` and `b`, and `t`, their sum, to
// `c`; `s` gets the sum of `a` and `b`.
fn recover_sum(
    u: &[u64],
    v: &[u64],
    t: &[u64],
    settings: &Settings,
    a: &mut [u64],
    b: &mut [u64],
    c: &mut [u64],
    s: &mut [u64],
) -> SumOutcomes
    ensures { let ds = degrees_of settings.now in GridSum settings.now.bitwidth ds u.now v.now t.now
        → said_number result.first ≡ 0 → said_number result.second ≡ 0
        → length t.now ≡ cells ds → length c.old ≡ cells ds → length s.old ≡ cells ds
        → (said_number result.whole ≡ 0) × (said_number result.sum ≡ 0) × (s.new ≡ c.new) }
{
    let first = multivar_poly_recovery::recover_multivar_poly(u, settings, a);
    let second = multivar_poly_recovery::recover_multivar_poly(v, settings, b);
    let whole = multivar_poly_recovery::recover_multivar_poly(t, settings, c);
    let sum = poly::sum(a, b, settings, s);
    SumOutcomes {
        first,
        second,
        whole,
        sum,
    }
}

// A grid that contains a refused grid is refused: no larger grid makes a 6 go away. The larger one has the degree `higher`.
fn recover_larger(
    small: &[u64],
    large: &[u64],
    settings: &Settings,
    higher: u8,
    a: &mut [u64],
    b: &mut [u64],
) -> TwoOutcomes
    ensures { let s = settings.now in Contains s.bitwidth (cube s.support.now higher) large.now (degrees_of s) small.now
        → said_number result.first ≡ 6
        → CallPasses 65536 true s.total (fits_width s.bitwidth) s.support.now (cube s.support.now higher)
        (λ n. (large.now, n) ∷ (b.old, n) ∷ [])
        → said_number result.second ≡ 6 }
{
    let wider = Settings {
        max_degree: higher,
        ..*settings
    };
    let first = multivar_poly_recovery::recover_multivar_poly(small, settings, a);
    let second = multivar_poly_recovery::recover_multivar_poly(large, &wider, b);
    TwoOutcomes { first, second }
}
