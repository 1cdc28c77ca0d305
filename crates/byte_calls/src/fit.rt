// The weighted fit on tables of bytes. Its matrix and its right side are kept inside (rooms).
ghost use Rattle.std.specs.Prelude.{◌≡◌, min};
ghost use Rattle.meaning.specs.Settings.{cube};
ghost use Rattle.answers.specs.Said.{said};
ghost use Rattle.weighted_poly_fit.specs.Fits.{Fits};
ghost use Rattle.byte_calls.specs.Bytes.{decoded};
ghost use Rattle.byte_calls.specs.Calls.{fit_bytes_reply, fit_bytes_left};
ghost use Rattle.byte_calls.specs.Forms.{byte_grid, fit_settings_on, fit_held_by};

use crate::checks::ByteSettings;
use crate::codec::{self, MOST};
use crate::rooms;
use answers::Refusal;
use room::sizes;
use room::sizes::{FitRoom, FitSettings};

// The settings of a fit on bytes: the support, of `count` indices, the number of variables in all, the width, the highest sum of exponents, and the degree of
// the grid, which every support variable has. Not `FitSettings`, since the support crosses as bytes, with its count beside them. The two
// functions below name each field: each makes a struct of another type, so that `..*self` will not do.
#[derive(Clone, Copy, Debug, PartialEq, Eq)]
pub struct ByteFitSettings<'a> {
    pub support: &'a [u8],
    pub count: u64,
    pub total: u32,
    pub bitwidth: u32,
    pub max_degree: u8,
    pub grid_degree: u8,
}

impl<'a> ByteFitSettings<'a> {
    // The settings of the grid.
    fn grid(&self) -> ByteSettings<'a>
        ensures { result ≡ byte_grid self.now }
    {
        ByteSettings {
            support: self.support,
            count: self.count,
            total: self.total,
            bitwidth: self.bitwidth,
            max_degree: self.grid_degree,
        }
    }

    // The settings with these indices as support.
    fn on<'b>(&self, indices: &'b [u64]) -> FitSettings<'b>
        ensures { result ≡ fit_settings_on self.now indices.entry }
    {
        FitSettings {
            support: indices,
            total: self.total,
            bitwidth: self.bitwidth,
            max_degree: self.max_degree,
            grid_degree: self.grid_degree,
        }
    }
}

// Fits a polynomial in falling factorials to weighted targets on the grid {0, .., grid_degree} over the support variables, modulo 2^bitwidth: exponents reach
// at most the smaller of max_degree and grid_degree, their sum at most max_degree. `weights` and `targets` have an entry for each grid point, and `out` gets a
// coefficient for each cell of the box of that smaller degree; the result is the largest total degree among those that are not 0. Refused in the order 9 (the
// support's bytes), 1, 2, 3, 5, 7, 8 (the grid or the matrix has more than 4,096 entries), 9 (the other tables' bytes), when `out` is as it was, and then for
// 10 where the elimination finds no answer, when all bytes of `out` are 0. The other tables are not altered.
pub fn fit(
    weights: &[u8],
    targets: &[u8],
    settings: &ByteFitSettings,
    out: &mut [u8],
) -> Result<u64, Refusal>
    ensures says { let s = settings.now in said result ≡ fit_bytes_reply s.count s.support.now weights.now targets.now out.old
        (fit_held_by s weights.now targets.now) }
    ensures leaves { let s = settings.now in out.new ≡ fit_bytes_left s.count s.support.now weights.now targets.now out.old
        (fit_held_by s weights.now targets.now) }
    ensures fits { let s = settings.now in Fits s.bitwidth (cube (decoded s.support.now) (min s.max_degree s.grid_degree))
        (cube (decoded s.support.now) s.grid_degree) s.max_degree (decoded weights.now) (decoded targets.now)
        (said result).number (said result).value (decoded out.new) }
{
    let mut places = [0u64; 20];
    let rows = settings.grid().check(false, &mut places)?;
    let asked = settings.on(&places[..settings.count as usize]);
    let columns = sizes::fit_columns(&asked)?;
    let needs = FitRoom {
        rows,
        columns,
        entries: rows * columns,
    };
    if (settings::BYTE_LIMIT as u64) < needs.entries {
        return Err(Refusal::TooLarge);
    }
    let degrees = asked.answer().degrees();
    let cells = settings::count_cells(degrees.as_slice(), settings::BYTE_LIMIT);
    if !codec::holds(weights, needs.rows)
        || !codec::holds(targets, needs.rows)
        || !codec::holds(out, cells)
    {
        return Err(Refusal::WrongLength);
    }
    if needs.entries <= 128 {
        return rooms::fit_in::<128>(weights, targets, &asked, needs, cells as usize, out);
    }
    rooms::fit_in::<MOST>(weights, targets, &asked, needs, cells as usize, out)
}
