// Sameness of what other calls left, and several comparisons. What the calls said is a struct (`lib` says why).
ghost use Rattle.std.specs.Prelude.{◌≡◌, List};
ghost use Rattle.meaning.specs.Settings.{cube};
ghost use Rattle.meaning.specs.Polynomials.{Term};
ghost use Rattle.meaning.specs.Replies.{accepted};
ghost use Rattle.demand3.specs.Words.{AgreeingOver, Relaid};
ghost use Rattle.answers.specs.Said.{said_number, said_truth};
ghost use Rattle.settings.specs.Forms.{degrees_of, form_lent};

use answers::Refusal;
use settings::{Form, Settings};

// What two recoveries and the comparison of their answers said.
#[derive(Clone, Copy, Debug, PartialEq, Eq)]
struct RecoveredTwice {
    first: Result<(), Refusal>,
    second: Result<(), Refusal>,
    same: Result<bool, Refusal>,
}

// Recoveries of one polynomial, from grids of supports in any order and of any degrees that it fits, are the same form.
fn recover_twice(
    values1: &[u64],
    settings: &Settings,
    values2: &[u64],
    support2: &[u64],
    degree2: u8,
    a: &mut [u64],
    b: &mut [u64],
) -> RecoveredTwice
    ensures { let s = settings.now in (p : List Term) → AgreeingOver s.total s.bitwidth s.support.now (degrees_of s) values1.now p
        → AgreeingOver s.total s.bitwidth support2.now (cube support2.now degree2) values2.now p
        → said_number result.first ≡ 0 → said_number result.second ≡ 0 → said_truth result.same ≡ accepted 1 }
{
    let other = Settings {
        support: support2,
        max_degree: degree2,
        ..*settings
    };
    let first = multivar_poly_recovery::recover_multivar_poly(values1, settings, a);
    let second = multivar_poly_recovery::recover_multivar_poly(values2, &other, b);
    let form1 = Form {
        settings: *settings,
        coeffs: a,
    };
    let form2 = Form {
        settings: other,
        coeffs: b,
    };
    let same = sameness::same(&form1, &form2);
    RecoveredTwice {
        first,
        second,
        same,
    }
}

// What a reduction and the comparison with what was before said.
#[derive(Clone, Copy, Debug, PartialEq, Eq)]
struct ReducedOutcomes {
    reduced: Result<(), Refusal>,
    same: Result<bool, Refusal>,
}

// A form is the same as its reduction: `copy` holds its coefficients and is reduced.
fn reduce_and_compare(form: &Form, copy: &mut [u64]) -> ReducedOutcomes
    ensures { copy.old ≡ form.now.coeffs.now → said_number result.reduced ≡ 0 → said_truth result.same ≡ accepted 1 }
{
    let reduced = poly::reduce(copy, &form.settings);
    let same = sameness::same(
        form,
        &Form {
            coeffs: copy,
            ..*form
        },
    );
    ReducedOutcomes { reduced, same }
}

// What two comparisons said.
#[derive(Clone, Copy, Debug, PartialEq, Eq)]
struct TwoTruths {
    one: Result<bool, Refusal>,
    other: Result<bool, Refusal>,
}

// A yes at one order of the supports is a yes at every order, and a no a no: `c` holds the coefficients of `a`, and `d` those of `b`, each in a box of its own.
fn same_any_order(a: &Form, c: &Form, b: &Form, d: &Form) -> TwoTruths
    ensures { Relaid (form_lent a.now) (form_lent c.now) → Relaid (form_lent b.now) (form_lent d.now)
        → (said_truth result.one).number ≡ 0 → (said_truth result.other).number ≡ 0 → said_truth result.one ≡ said_truth result.other }
{
    let one = sameness::same(a, b);
    let other = sameness::same(c, d);
    TwoTruths { one, other }
}

// What four comparisons said.
#[derive(Clone, Copy, Debug, PartialEq, Eq)]
struct FourTruths {
    first: Result<bool, Refusal>,
    turned: Result<bool, Refusal>,
    second: Result<bool, Refusal>,
    whole: Result<bool, Refusal>,
}

// Sameness goes both ways and hands on: where `a` is the same as `b`, `b` is the same as `a`, and where `b` is the same as `c` too, `a` is the same as `c`.
fn same_hands_on(a: &Form, b: &Form, c: &Form) -> FourTruths
    ensures turned { said_truth result.first ≡ accepted 1 → said_truth result.turned ≡ accepted 1 }
    ensures whole { said_truth result.first ≡ accepted 1 → said_truth result.second ≡ accepted 1 → said_truth result.whole ≡ accepted 1 }
{
    let first = sameness::same(a, b);
    let turned = sameness::same(b, a);
    let second = sameness::same(b, c);
    let whole = sameness::same(a, c);
    FourTruths {
        first,
        turned,
        second,
        whole,
    }
}
