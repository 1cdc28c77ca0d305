// Sameness of forms: whether two forms have equal values modulo 2^w at every whole-number point, whatever their supports, orders and degrees.
#![tactic(auto)]

ghost use Rattle.std.specs.Prelude.{◌≡◌, ℕ, ◌&&◌, ◌≤◌};
ghost use Rattle.meaning.specs.Sameness.{matched};
ghost use Rattle.meaning.specs.Calls.{same_reply};
ghost use Rattle.theory.specs.Scattered.{Places};
ghost use Rattle.theory.specs.SameForms.{form};
ghost use Rattle.demand3.specs.Promises.{Compared};
ghost use Rattle.answers.specs.Said.{said_truth};
ghost use Rattle.settings.specs.Forms.{form_lent};
ghost use Rattle.sameness.specs.Places.{walked};

mod checked;
mod partner;
mod walk;

use answers::Refusal;
use checked::Checked;
use partner::Partner;
use settings::Form;
use walk::Part;

// Whether each coefficient of the first form is matched in the second.
fn matched_in(form1: &Checked, form2: &Checked, bits: u32) -> bool
    requires { bits ≤ 64 }
    ensures { let f = form1.now in let g = form2.now in
        result ≡ walked bits f.support.now f.degrees.now f.coeffs.now g.support.now g.degrees.now g.coeffs.now }
{
    // There is no heap: room for twenty variables, of which those of the form are lent.
    let mut partners = [Partner { limit: 0, step: 0 }; 20];
    form1.find_partners(form2, &mut partners);
    let whole = Part {
        coeffs: form1.coeffs,
        degrees: form1.degrees,
        partners: &partners[..form1.support.len()],
        bits,
        place: 0,
    };
    whole.matches(form2.coeffs)
}

// Whether two checked forms with equal totals and widths are the same. With equal supports and degrees the boxes are compared cell by cell. Else every coefficient of either is to be matched in the other; a box that lies within the other one need not be walked.
fn same_boxes(form1: &Checked, form2: &Checked, bits: u32) -> bool
    requires { bits ≤ 64 }
    ensures { let f = form1.now in let g = form2.now in (total : ℕ) → Places total f.support.now → Places total g.support.now →
        let f' = form total bits f.support.now f.degrees.now f.coeffs.now in let g' = form total bits g.support.now g.degrees.now g.coeffs.now in
        result ≡ (matched f' g' && matched g' f') }
{
    if form1.has_box_of(form2) {
        return box_rows::agree(form1.coeffs, form2.coeffs, form1.degrees, bits);
    }
    if form2.lies_within(form1) {
        return matched_in(form1, form2, bits);
    }
    if !matched_in(form2, form1, bits) {
        return false;
    }
    if form1.lies_within(form2) {
        return true;
    }
    matched_in(form1, form2, bits)
}

// Whether two forms are the same: totals and widths are equal, and both have the same value modulo 2^width at every whole-number point, which has a
// coordinate for each of the variables below the total. Support, its order and the degrees may differ; a variable outside a support has exponent 0 there;
// boxes that are not normal forms count as the polynomials in falling factorials that they hold. The first form is checked, then the second; each is
// refused for 1, 2, 3, 5, 7, 8, and 9 where there is not one coefficient for each cell. Nothing is altered.
pub fn same(form1: &Form, form2: &Form) -> Result<bool, Refusal>
    ensures says { said_truth result ≡ same_reply (form_lent form1.now) (form_lent form2.now) }
    ensures compares { Compared (form_lent form1.now) (form_lent form2.now) (said_truth result) }
{
    form1.settings.check_form(form1.coeffs)?;
    form2.settings.check_form(form2.coeffs)?;
    if form1.settings.total != form2.settings.total {
        return Ok(false);
    }
    if form1.settings.bitwidth != form2.settings.bitwidth {
        return Ok(false);
    }
    let degrees1 = form1.settings.degrees();
    let degrees2 = form2.settings.degrees();
    let checked1 = Checked {
        support: form1.settings.support,
        degrees: degrees1.as_slice(),
        coeffs: form1.coeffs,
    };
    let checked2 = Checked {
        support: form2.settings.support,
        degrees: degrees2.as_slice(),
        coeffs: form2.coeffs,
    };
    Ok(same_boxes(&checked1, &checked2, form1.settings.bitwidth))
}
