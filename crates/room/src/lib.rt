// What recovery needs, from its settings alone, before a value is surveyed: its cells and its subtractions. What a fit needs is said in `sizes`.
#![tactic(auto)]

ghost use Rattle.std.specs.Prelude.{◌≡◌, ◌≤◌, length};
ghost use Rattle.meaning.specs.Boxes.{cells};
ghost use Rattle.meaning.specs.Counts.{subtractions, recovery_room_lem};
ghost use Rattle.settings.specs.Forms.{degrees_of};
ghost use Rattle.room.specs.Told.{room_said};
ghost use Rattle.room.specs.Promises.{Costs};

mod counts;
pub mod sizes;

use answers::Refusal;
use settings::Settings;

// The counts of a grid that recovery takes.
#[derive(Clone, Copy, Debug, Default, PartialEq, Eq)]
pub struct RecoveryRoom {
    pub cells: u64,
    pub subtractions: u64,
}

// The subtractions of recovery: along each variable, pass p from 1 to its degree makes one at each cell whose coordinate is p or more. That is in all
// half of the cells times the degree.
fn count_subtractions(degrees: &[u8], count: u64) -> u64
    requires { (count ≡ cells degrees.now) × (count ≤ 65536) × (length degrees.now ≤ 20) }
    ensures { result ≡ subtractions degrees.now }
{
    degrees
        .iter()
        .map(|degree| count * *degree as u64 / 2)
        .sum()
}

// The cells of a grid {0, .., max_degree} over the support variables, which is how many values and coefficients recovery is lent, and the subtractions
// that it makes. Refused as recovery is, for 1, 2, 3, 4, 5, 7, and 8 above 65,536 cells, in that order.
pub fn recovery_room(settings: &Settings) -> Result<RecoveryRoom, Refusal>
    ensures says { let s = settings.now in room_said result ≡ recovery_room_lem s.total s.bitwidth s.support.now (degrees_of s) }
    ensures costs { let s = settings.now in Costs (length s.support.now) s.max_degree (room_said result) }
{
    let cells = settings.check(true)?;
    let degrees = settings.degrees();
    let subtractions = count_subtractions(degrees.as_slice(), cells);
    Ok(RecoveryRoom {
        cells,
        subtractions,
    })
}
