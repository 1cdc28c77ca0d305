// The fit on tables of bytes with room for its tables by need: the weights, the targets, the system and the coefficients, of 128 entries each, or of as many as
// a table of bytes may have. The rooms are arrays, and the parameters stand alone, for the reasons said in `held`.
ghost use Rattle.std.specs.Prelude.{◌≡◌, ◌*◌, ◌≤◌, length};
ghost use Rattle.meaning.specs.Settings.{byte_limit};
ghost use Rattle.meaning.specs.Fit.{fit_reply, fit_out};
ghost use Rattle.answers.specs.Said.{said};
ghost use Rattle.byte_calls.specs.Bytes.{decoded, encoded};
ghost use Rattle.byte_calls.specs.Forms.{fit_lent};

use crate::codec;
use answers::Refusal;
use room::sizes::{FitRoom, FitSettings};

// The fit of a box of `cells` cells, whose tables have their exact lengths, with room for so many entries a table. It is kept out of its caller.
#[inline(never)]
pub(crate) fn fit_in<const ROOM: usize>(
    weights: &[u8],
    targets: &[u8],
    settings: &FitSettings,
    needs: FitRoom,
    cells: usize,
    out: &mut [u8],
) -> Result<u64, Refusal>
    requires tables { (length weights.now ≡ needs.rows * 8) × (length targets.now ≡ needs.rows * 8) × (length out.old ≡ cells * 8) }
    requires room { (needs.rows ≤ ROOM) × (needs.entries ≤ ROOM) × (cells ≤ ROOM) × (ROOM ≤ byte_limit) }
    ensures says { said result ≡ fit_reply (fit_lent settings.now weights.now targets.now needs.entries needs.rows cells) }
    ensures leaves { out.new ≡ encoded (fit_out (fit_lent settings.now weights.now targets.now needs.entries needs.rows cells)) }
{
    let rows = needs.rows as usize;
    let entries = needs.entries as usize;
    let mut factors = [0u64; ROOM];
    let mut wanted = [0u64; ROOM];
    let mut matrix = [0u64; ROOM];
    let mut right = [0u64; ROOM];
    let mut found = [0u64; ROOM];
    let factors = &mut factors[..rows];
    let wanted = &mut wanted[..rows];
    let found = &mut found[..cells];
    codec::decode(weights, factors);
    codec::decode(targets, wanted);
    let answer = weighted_poly_fit::fit::recover_weighted_poly(
        factors,
        wanted,
        settings,
        &mut matrix[..entries],
        &mut right[..rows],
        found,
    );
    codec::encode(found, out);
    answer
}
