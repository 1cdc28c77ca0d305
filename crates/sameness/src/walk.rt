// A walk over the cells of one form with the place of each in another form's coefficients at hand.
ghost use Rattle.std.specs.Prelude.{◌≡◌, length};
ghost use Rattle.meaning.specs.Tables.{at};
ghost use Rattle.meaning.specs.Boxes.{cells};
ghost use Rattle.meaning.specs.Recovery.{every};
ghost use Rattle.sameness.specs.Places.{is_match};
ghost use Rattle.sameness.specs.Lent.{Walkable};
ghost use Rattle.sameness.specs.Partners.{limits_of, steps_of};

use crate::partner::Partner;
use box_rows::layout;

// The coefficient at a place, 0 past the end.
fn found(other: &[u64], place: u64) -> u64
    ensures { result ≡ at other.now place }
{
    other.get(place as usize).copied().unwrap_or(0)
}

// A box, or a sub-box: its coefficients, with degrees and partners of its variables; `bits` bits are left in it, and its first cell has its place.
#[derive(Drop)]
pub(crate) struct Part<'a> {
    pub(crate) coeffs: &'a [u64],
    pub(crate) degrees: &'a [u8],
    pub(crate) partners: &'a [Partner],
    pub(crate) bits: u32,
    pub(crate) place: u64,
    pub(crate) ghost walkable: { Walkable degrees.now coeffs.now (limits_of partners.now) (steps_of partners.now) bits place },
}

impl Part<'_> {
    // One variable: whether each coefficient of the line is, modulo 2 to the bits that are left without the twos in its number's factorial, the one at its
    // place in `other`.
    fn matches_line(&self, other: &[u64]) -> bool
        requires { length self.now.degrees.now ≡ 1 }
        ensures { let p = self.now in result ≡ every (cells p.degrees.now)
            (is_match p.bits p.degrees.now p.coeffs.now (limits_of p.partners.now) (steps_of p.partners.now) other.now p.place) }
    {
        let partner = self.partners[0];
        let mut mask = arith::bitmask(self.bits);
        for (i, coefficient) in self.coeffs.iter().enumerate() {
            let there = found(other, self.place + partner.way(i));
            if (*coefficient & mask) != (there & mask) {
                return false;
            }
            mask = layout::next_mask(mask, i + 1);
        }
        true
    }

    // Whether each coefficient of the box is, modulo its bound, the one at its place in `other`: each sub-box of the last variable in turn, up to the first
    // with a coefficient that is not. Where no bits are left nothing counts. The sub-boxes are cut by their places, of which the invariant speaks.
    pub(crate) fn matches(&self, other: &[u64]) -> bool
        ensures { let p = self.now in result ≡ every (cells p.degrees.now)
            (is_match p.bits p.degrees.now p.coeffs.now (limits_of p.partners.now) (steps_of p.partners.now) other.now p.place) }
    {
        if self.bits == 0 {
            return true;
        }
        if self.degrees.len() == 1 {
            return self.matches_line(other);
        }
        let last = self.degrees.len() - 1;
        let count = self.degrees[last] as usize + 1;
        let size = self.coeffs.len() / count;
        let partner = self.partners[last];
        let mut left = self.bits;
        let mut from = 0;
        for e in 0..count {
            let end = from + size;
            let next = Part {
                coeffs: &self.coeffs[from..end],
                degrees: &self.degrees[..last],
                partners: &self.partners[..last],
                bits: left,
                place: self.place + partner.way(e),
            };
            if !next.matches(other) {
                return false;
            }
            from = end;
            left = layout::bits_left(left, e + 1);
        }
        true
    }
}
