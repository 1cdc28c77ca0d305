// The settings of a call: the width, the support, the degree and the size of the box, and the lengths of lent tables, in the order in which calls test them.
#![tactic(auto)]

ghost use Rattle.std.specs.Prelude.{◌≡◌, ◌+◌, ◌≤◌, min, length, take};
ghost use Rattle.meaning.specs.Boxes.{cells};
ghost use Rattle.meaning.specs.Settings.{fits_width, limited_number};
ghost use Rattle.meaning.specs.Calls.{reply, settings_reply, form_number, in_out_number};
ghost use Rattle.answers.specs.Said.{said, said_number};
ghost use Rattle.settings.specs.Forms.{degrees_of, form_of};

mod degrees;
mod support;

use answers::Refusal;
pub use degrees::Degrees;

// The most entries of a table of numbers: cells of a box, and of a matrix.
pub const TABLE_LIMIT: u32 = 65536;

// The most entries of a table of bytes, and of the bench program.
pub const BYTE_LIMIT: u32 = 4096;

// Whether calls take a width: 2 to 64.
pub fn width_fits(bitwidth: u32) -> bool
    ensures { result ≡ fits_width bitwidth }
{
    if bitwidth < 2 {
        return false;
    }
    bitwidth <= 64
}

// The cells of a box, or one more than the limit where there are more: a number and no Option, since the definition is a minimum.
pub fn count_cells(degrees: &[u8], limit: u32) -> u64
    ensures { result ≡ min (cells degrees.now) (limit + 1) }
{
    let most = limit as u64;
    let mut count: u64 = 1;
    for degree in degrees {
        count *= *degree as u64 + 1;
        if most < count {
            return most + 1;
        }
    }
    count
}

// The settings of a call on a box: the support variables in their order, the number of variables in all, the width, and the highest degree, which every
// support variable has.
#[derive(Clone, Copy, Debug, PartialEq, Eq)]
pub struct Settings<'a> {
    pub support: &'a [u64],
    pub total: u32,
    pub bitwidth: u32,
    pub max_degree: u8,
}

impl<'a> Settings<'a> {
    // The degrees of the box, of the first twenty support variables where there are more.
    pub fn degrees(&self) -> Degrees
        ensures first { result ≡ take 20 (degrees_of self.now) }
        ensures all { length self.now.support.now ≤ 20 → result ≡ degrees_of self.now }
    {
        Degrees::of_all(self.max_degree, self.support.len())
    }

    // The cells of the box, at most `limit`, or the first cause to turn it down, in the order 1, 2, 3, 4, 5, 7, 8. `strict` says that degree 0 is turned down
    // (4), `fits` that the width passes (3). Flags, here and below, since the definitions (`limited_number`, `settings_reply`, `in_out_number`) take these
    // tests as Bools.
    pub fn check_within(&self, limit: u32, strict: bool, fits: bool) -> Result<u64, Refusal>
        ensures { let s = self.now in said result ≡ reply (limited_number limit strict s.total fits s.support.now (degrees_of s)) (cells (degrees_of s)) }
    {
        let zero = strict & (self.max_degree == 0);
        support::check_support(self.support, self.total, fits, zero)?;
        let cells = count_cells(self.degrees().as_slice(), limit);
        if (limit as u64) < cells {
            return Err(Refusal::TooLarge);
        }
        Ok(cells)
    }

    // The same of a call on tables of numbers.
    pub fn check(&self, strict: bool) -> Result<u64, Refusal>
        ensures { let s = self.now in said result ≡ settings_reply strict s.total s.bitwidth s.support.now (degrees_of s) }
    {
        self.check_within(TABLE_LIMIT, strict, width_fits(self.bitwidth))
    }

    // The settings of a form and the length of its coefficients: one for each cell, else 9.
    pub fn check_form(&self, coeffs: &[u64]) -> Result<(), Refusal>
        ensures { said_number result ≡ form_number (form_of self.now coeffs.now) }
    {
        let count = self.check(false)?;
        if coeffs.len() as u64 != count {
            return Err(Refusal::WrongLength);
        }
        Ok(())
    }

    // The settings of a call that takes one table and fills another, and the lengths of both, which are one entry for each cell. Accepted, or turned down
    // for 1, 2, 3, 4 (where `strict`), 5, 7, 8, 9. Nothing is altered.
    pub fn check_tables(&self, strict: bool, given: &[u64], out: &[u64]) -> Result<(), Refusal>
        ensures { let s = self.now in said_number result ≡ in_out_number strict s.total s.bitwidth s.support.now (degrees_of s) given.now out.now }
    {
        let count = self.check(strict)?;
        if given.len() as u64 != count {
            return Err(Refusal::WrongLength);
        }
        if out.len() as u64 != count {
            return Err(Refusal::WrongLength);
        }
        Ok(())
    }
}

// A form: settings, and a table of coefficients.
#[derive(Clone, Copy, Debug, PartialEq, Eq)]
pub struct Form<'a> {
    pub settings: Settings<'a>,
    pub coeffs: &'a [u64],
}
