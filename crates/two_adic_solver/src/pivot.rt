// The pivot of a column, and how often its row is subtracted.
ghost use Rattle.std.specs.Prelude.{◌≡◌, ℕ, ◌-◌, ◌*◌, ◌/◌, ◌%◌, ◌^◌, ◌<◌, ◌≤◌, ◌==◌};
ghost use Rattle.meaning.specs.Factorials.{twos_of};
ghost use Rattle.meaning.specs.Inverses.{inverse};

use crate::width::Width;

// Row and column of a pivot, the twos of its entry, which are fewer than the width, and the inverse of its odd part.
#[derive(Clone, Copy, Debug, PartialEq, Eq)]
pub(crate) struct Pivot {
    pub(crate) row: usize,
    pub(crate) column: usize,
    pub(crate) twos: u32,
    pub(crate) inverse: u64,
    pub(crate) width: Width,
    ghost fits: { twos < width.bits },
}

impl Pivot {
    pub(crate) fn new(entry: u64, row: usize, column: usize, width: Width) -> Self
        requires { twos_of width.bits entry < width.bits }
        ensures place { (result.row ≡ row) × (result.column ≡ column) × (result.width.bits ≡ width.bits) }
        ensures entry { (result.twos ≡ twos_of width.bits entry) × (result.inverse ≡ inverse (entry / 2 ^ result.twos) (width.bits - result.twos)) }
    {
        let twos = width.twos(entry);
        let inverse = math_utils::mod_inverse_odd(entry >> twos, width.bits - twos).unwrap();
        Pivot {
            row,
            column,
            twos,
            inverse,
            width,
        }
    }

    // Whether the power of two divides a number.
    pub(crate) fn divides(&self, number: u64) -> bool
        ensures { result ≡ (number % 2 ^ self.now.twos == 0) }
    {
        number & arith::bitmask(self.twos) == 0
    }

    // How often the pivot row is subtracted to clear an entry: the entry over 2^twos times the inverse, modulo 2^(w - twos).
    pub(crate) fn multiplier(&self, entry: u64) -> u64
        ensures { result ≡ (entry / 2 ^ self.now.twos * self.now.inverse) % 2 ^ (self.now.width.bits - self.now.twos) }
    {
        arith::wrapping_mul(entry >> self.twos, self.inverse)
            & arith::bitmask(self.width.bits - self.twos)
    }
}
