// What recovery and the fit need, from their settings alone. What the calls count is said in `room`; every count is 0 beside a refusal.
ghost use Rattle.std.specs.Prelude.{◌≡◌, length};
ghost use Rattle.meaning.specs.Settings.{cube};
ghost use Rattle.meaning.specs.Counts.{recovery_room_lem, fit_room_lem};
ghost use Rattle.room.specs.Told.{room_told};
ghost use Rattle.room.specs.Promises.{Costs};
ghost use Rattle.room.specs.Sizes.{fit_settings, fit_room_told};
ghost use Rattle.room.specs.FitPromises.{FitCosts};

use room::sizes::FitSettings;
use settings::Settings;

// The cells of a grid, and the subtractions of its recovery.
#[unsafe(no_mangle)]
pub extern "C" fn cobra_recovery_room(
    support: &[u64],
    total: u32,
    width: u32,
    degree: u8,
    cells: &mut u64,
    subtractions: &mut u64,
) -> u32
    ensures says { room_told result cells.new subtractions.new ≡ recovery_room_lem total width support.now (cube support.now degree) }
    ensures costs { Costs (length support.now) degree (room_told result cells.new subtractions.new) }
{
    let answer = room::recovery_room(&Settings {
        support,
        total,
        bitwidth: width,
        max_degree: degree,
    });
    let room = answer.unwrap_or_default();
    *cells = room.cells;
    *subtractions = room.subtractions;
    answers::outcome_code(answer.map(|_| ()))
}

// The rows, the columns and the matrix entries of a fit.
#[unsafe(no_mangle)]
pub extern "C" fn cobra_fit_room(
    support: &[u64],
    total: u32,
    width: u32,
    max_degree: u8,
    grid_degree: u8,
    rows: &mut u64,
    columns: &mut u64,
    entries: &mut u64,
) -> u32
    ensures says { fit_room_told result rows.new columns.new entries.new ≡ fit_room_lem (fit_settings total width support.now max_degree grid_degree) }
    ensures costs { FitCosts (length support.now) max_degree grid_degree (fit_room_told result rows.new columns.new entries.new) }
{
    let answer = room::sizes::fit_room(&FitSettings {
        support,
        total,
        bitwidth: width,
        max_degree,
        grid_degree,
    });
    let room = answer.unwrap_or_default();
    *rows = room.rows;
    *columns = room.columns;
    *entries = room.entries;
    answers::outcome_code(answer.map(|_| ()))
}
