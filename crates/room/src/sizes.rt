// What a fit needs, from its settings alone, before a value is surveyed: its rows, its columns and the entries of its matrix.
ghost use Rattle.std.specs.Prelude.{◌≡◌, length};
ghost use Rattle.meaning.specs.Counts.{fit_room_lem};
ghost use Rattle.room.specs.Sizes.{fit_asked, grid_of, answer_of, columns_reply, fit_room_said};
ghost use Rattle.room.specs.FitPromises.{FitCosts};
ghost use Rattle.answers.specs.Said.{said};

use crate::counts;
use answers::Refusal;
use settings::Settings;

// The settings of a fit: the support variables in their order, the number of variables in all, the width, the highest sum of exponents, and the degree of
// the grid, which every support variable has.
#[derive(Clone, Copy, Debug, PartialEq, Eq)]
pub struct FitSettings<'a> {
    pub support: &'a [u64],
    pub total: u32,
    pub bitwidth: u32,
    pub max_degree: u8,
    pub grid_degree: u8,
}

impl<'a> FitSettings<'a> {
    // The settings of the grid.
    pub fn grid(&self) -> Settings<'a>
        ensures { result ≡ grid_of self.now }
    {
        Settings {
            support: self.support,
            total: self.total,
            bitwidth: self.bitwidth,
            max_degree: self.grid_degree,
        }
    }

    // The settings of the answer's box, whose degree is the smaller of the two.
    pub fn answer(&self) -> Settings<'a>
        ensures { result ≡ answer_of self.now }
    {
        Settings {
            max_degree: self.max_degree.min(self.grid_degree),
            ..self.grid()
        }
    }
}

// The counts of a fit.
#[derive(Clone, Copy, Debug, Default, PartialEq, Eq)]
pub struct FitRoom {
    pub rows: u64,
    pub columns: u64,
    pub entries: u64,
}

// The rows of a fit, one for each grid point, which is how many weights and targets it is lent; its columns, one for each exponent list with no exponent above
// the smaller of max_degree and grid_degree and a sum of at most max_degree; and the entries of its matrix, rows times columns. The columns are counted without
// listing them. Refused as the fit is, for 1, 2, 3, 5, 7, and 8 where the grid or the matrix has more than 65,536 entries, in that order.
pub fn fit_room(settings: &FitSettings) -> Result<FitRoom, Refusal>
    ensures says { fit_room_said result ≡ fit_room_lem (fit_asked settings.now) }
    ensures costs { let s = settings.now in FitCosts (length s.support.now) s.max_degree s.grid_degree (fit_room_said result) }
{
    let rows = settings.grid().check(false)?;
    let degrees = settings.answer().degrees();
    let columns = counts::count_columns(degrees.as_slice(), settings.max_degree);
    let entries = rows * columns;
    if (settings::TABLE_LIMIT as u64) < entries {
        return Err(Refusal::TooLarge);
    }
    Ok(FitRoom {
        rows,
        columns,
        entries,
    })
}

// The columns alone, with the same refusals.
pub fn fit_columns(settings: &FitSettings) -> Result<u64, Refusal>
    ensures { said result ≡ columns_reply (fit_asked settings.now) }
{
    Ok(fit_room(settings)?.columns)
}
