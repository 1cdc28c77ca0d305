// Forms that passed their checks, and the variables of one looked up in another. Loops have an index, which their invariants speak of: a loop over `zip` has
// none.
ghost use Rattle.std.specs.Prelude.{◌≡◌, true, length, take};
ghost use Rattle.meaning.specs.Sameness.{within};
ghost use Rattle.sameness.specs.Places.{strides, lookup, lookups};
ghost use Rattle.sameness.specs.Lent.{Boxed};
ghost use Rattle.sameness.specs.Partners.{limits_of, steps_of};

use crate::partner::Partner;

// The support, a degree for each of its variables, and a coefficient for each cell. The degrees have a slice of their own, as `box_rows` takes them.
#[derive(Drop)]
pub(crate) struct Checked<'a> {
    pub(crate) support: &'a [u64],
    pub(crate) degrees: &'a [u8],
    pub(crate) coeffs: &'a [u64],
    pub(crate) ghost boxed: { Boxed support.now degrees.now coeffs.now },
}

impl Checked<'_> {
    // The degree and the stride of a variable.
    pub(crate) fn partner_of(&self, v: u64) -> Partner
        ensures limits { result.limit ≡ lookup v self.now.support.now self.now.degrees.now }
        ensures steps { result.step ≡ lookup v self.now.support.now (strides 1 self.now.degrees.now) }
    {
        let mut stride: u64 = 1;
        for (i, w) in self.support.iter().enumerate() {
            if *w == v {
                return Partner {
                    limit: self.degrees[i],
                    step: stride,
                };
            }
            stride *= self.degrees[i] as u64 + 1;
        }
        Partner { limit: 0, step: 0 }
    }

    // Whether another form has the same support in the same order and the same degrees, so far as a yes tells it. Place by place: `==` of both slices took a
    // quarter longer for forms of four cells, since that of bytes is a call.
    pub(crate) fn has_box_of(&self, other: &Checked) -> bool
        ensures { let f = self.now in let g = other.now in
            result ≡ true → (f.support.now ≡ g.support.now) × (f.degrees.now ≡ g.degrees.now) }
    {
        if self.support.len() != other.support.len() {
            return false;
        }
        for (i, v) in self.support.iter().enumerate() {
            if *v != other.support[i] {
                return false;
            }
            if self.degrees[i] != other.degrees[i] {
                return false;
            }
        }
        true
    }

    // Whether the box lies within another one: no degree is above that of the same variable there.
    pub(crate) fn lies_within(&self, other: &Checked) -> bool
        ensures { let f = self.now in let g = other.now in
            result ≡ within (lookups f.support.now g.support.now g.degrees.now) f.degrees.now }
    {
        for (i, v) in self.support.iter().enumerate() {
            if other.partner_of(*v).limit < self.degrees[i] {
                return false;
            }
        }
        true
    }

    // Puts what each variable has in another form into the first of twenty places.
    pub(crate) fn find_partners(&self, other: &Checked, partners: &mut [Partner; 20])
        ensures limits { let f = self.now in let g = other.now in
            limits_of (take (length f.support.now) partners.new) ≡ lookups f.support.now g.support.now g.degrees.now }
        ensures steps { let f = self.now in let g = other.now in
            steps_of (take (length f.support.now) partners.new) ≡ lookups f.support.now g.support.now (strides 1 g.degrees.now) }
    {
        for (i, v) in self.support.iter().enumerate() {
            partners[i] = other.partner_of(*v);
        }
    }
}
