// The room from the settings alone, and the call itself. What the calls said is a struct (`lib` says why).
ghost use Rattle.std.specs.Prelude.{length};
ghost use Rattle.meaning.specs.Boxes.{cells};
ghost use Rattle.answers.specs.Said.{said, said_number};
ghost use Rattle.settings.specs.Forms.{degrees_of};
ghost use Rattle.room.specs.Told.{room_said};
ghost use Rattle.room.specs.Sizes.{answer_of, fit_room_said};
ghost use Rattle.calls_together.specs.Rooms.{RecoveryKeeps, FitKeeps};

use answers::Refusal;
use room::RecoveryRoom;
use room::sizes::{FitRoom, FitSettings};
use settings::Settings;

// What the room of recovery and recovery said. One struct for both pairs would need type parameters, since neither field has the same type in both.
#[derive(Clone, Copy, Debug, PartialEq, Eq)]
struct RecoveryPair {
    room: Result<RecoveryRoom, Refusal>,
    call: Result<(), Refusal>,
}

// Recovery keeps to its room: its number is the room's at tables of the exact lengths, but for 6.
fn recover_in_room(values: &[u64], settings: &Settings, out: &mut [u64]) -> RecoveryPair
    ensures { RecoveryKeeps (room_said result.room) (length values.now) (length out.old) (said_number result.call) }
{
    let room = room::recovery_room(settings);
    let call = multivar_poly_recovery::recover_multivar_poly(values, settings, out);
    RecoveryPair { room, call }
}

// What the room of the fit and the fit said.
#[derive(Clone, Copy, Debug, PartialEq, Eq)]
struct FitPair {
    room: Result<FitRoom, Refusal>,
    call: Result<u64, Refusal>,
}

// The fit keeps to its room: its number is the room's at tables of the exact lengths, but for 10.
fn fit_in_room(
    weights: &[u64],
    targets: &[u64],
    settings: &FitSettings,
    matrix: &mut [u64],
    right: &mut [u64],
    out: &mut [u64],
) -> FitPair
    ensures { FitKeeps (fit_room_said result.room) (cells (degrees_of (answer_of settings.now))) (length weights.now)
        (length targets.now) (length matrix.old) (length right.old) (length out.old) (said result.call).number }
{
    let room = room::sizes::fit_room(settings);
    let call = weighted_poly_fit::fit::recover_weighted_poly(
        weights, targets, settings, matrix, right, out,
    );
    FitPair { room, call }
}
