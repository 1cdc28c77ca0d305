// What is done at the cells of boxes: sum, reduction, and the tests against the bounds. A test writes no table.
ghost use Rattle.std.specs.Prelude.{◌+◌, ◌%◌, ◌<◌, true, length, ◌==◌, nat_lt};
ghost use Rattle.meaning.specs.Tables.{at};

use crate::walk::Job;

// The sum of two boxes, each coefficient kept below its bound.
#[derive(Clone, Copy, Debug, PartialEq, Eq)]
pub(crate) struct Sum<'a> {
    pub(crate) a: &'a [u64],
    pub(crate) b: &'a [u64],
}

impl Job for Sum<'_> {
    ghost at_hand = { λ job n i. (i < length job.a.now) × (i < length job.b.now) × (i < n) };

    ghost left = { λ job m i x. (at job.a.now i + at job.b.now i) % m };

    ghost passes = { λ job m i. true };

    fn cell(&self, table: &mut [u64], i: usize, mask: u64) -> u64 {
        table[i] = self.a[i].wrapping_add(self.b[i]) & mask;
        0
    }
}

// Every coefficient taken modulo its bound, in place.
#[derive(Clone, Copy, Debug, PartialEq, Eq)]
pub(crate) struct Reduction;

impl Job for Reduction {
    ghost at_hand = { λ job n i. i < n };

    ghost left = { λ job m i x. x % m };

    ghost passes = { λ job m i. true };

    fn cell(&self, table: &mut [u64], i: usize, mask: u64) -> u64 {
        table[i] = table[i] & mask;
        0
    }
}

// The test that every coefficient is below its bound: what is over it fails.
#[derive(Clone, Copy, Debug, PartialEq, Eq)]
pub(crate) struct Bounded<'a> {
    pub(crate) coeffs: &'a [u64],
}

impl Job for Bounded<'_> {
    ghost at_hand = { λ job n i. i < length job.coeffs.now };

    ghost left = { λ job m i x. x };

    ghost passes = { λ job m i. nat_lt (at job.coeffs.now i) m };

    fn cell(&self, table: &mut [u64], i: usize, mask: u64) -> u64 {
        self.coeffs[i] - (self.coeffs[i] & mask)
    }
}

// The test that two boxes are equal modulo the bounds: the bits below the bound in which two coefficients differ fail.
#[derive(Clone, Copy, Debug, PartialEq, Eq)]
pub(crate) struct Agreement<'a> {
    pub(crate) a: &'a [u64],
    pub(crate) b: &'a [u64],
}

impl Job for Agreement<'_> {
    ghost at_hand = { λ job n i. (i < length job.a.now) × (i < length job.b.now) };

    ghost left = { λ job m i x. x };

    ghost passes = { λ job m i. at job.a.now i % m == at job.b.now i % m };

    fn cell(&self, table: &mut [u64], i: usize, mask: u64) -> u64 {
        (self.a[i] ^ self.b[i]) & mask
    }
}
