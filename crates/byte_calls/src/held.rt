// Recovery and value on tables of bytes with room by need: for 64 cells, or for as many as a table of bytes may have (`codec::MOST`). The library has no
// heap, so the rooms are arrays, of which the part that is needed is lent. Each function is kept out of its caller, so that a small box does not have the room
// of a large one in its frame. The bounds on ROOM stand in each contract, since no type of a const parameter holds them; the parameters are those of the call
// and the cells that its check counted, and a struct of these would be made in one place and read in one. Recovery and value are two functions, here and in
// lib.rt, since each lends other tables to another call and promises another thing.
ghost use Rattle.std.specs.Prelude.{◌≡◌, ◌*◌, ◌≤◌, length};
ghost use Rattle.meaning.specs.Settings.{byte_limit};
ghost use Rattle.meaning.specs.Calls.{recovery_number, recovery_left, value_reply};
ghost use Rattle.answers.specs.Said.{said, said_number};
ghost use Rattle.settings.specs.Forms.{degrees_of};
ghost use Rattle.byte_calls.specs.Bytes.{decoded, encoded};
ghost use Rattle.byte_calls.specs.Forms.{zeros};

use crate::codec;
use answers::Refusal;
use settings::Settings;

// Recovery of a box of `cells` cells with room for so many.
#[inline(never)]
pub(crate) fn recover_in<const ROOM: usize>(
    values: &[u8],
    settings: &Settings,
    cells: usize,
    out: &mut [u8],
) -> Result<(), Refusal>
    requires tables { (length values.now ≡ cells * 8) × (length out.old ≡ cells * 8) }
    requires room { (cells ≤ ROOM) × (ROOM ≤ byte_limit) }
    ensures says { let s = settings.now in said_number result ≡ recovery_number s.total s.bitwidth s.support.now (degrees_of s)
        (decoded values.now) (zeros cells) }
    ensures leaves { let s = settings.now in out.new ≡ encoded (recovery_left s.total s.bitwidth s.support.now (degrees_of s)
        (decoded values.now) (zeros cells)) }
{
    let mut read = [0u64; ROOM];
    let mut found = [0u64; ROOM];
    let read = &mut read[..cells];
    let found = &mut found[..cells];
    codec::decode(values, read);
    let outcome = multivar_poly_recovery::recover_multivar_poly(read, settings, found);
    codec::encode(found, out);
    outcome
}

// The value of a box of `cells` cells with room for so many.
#[inline(never)]
pub(crate) fn value_in<const ROOM: usize>(
    coeffs: &[u8],
    settings: &Settings,
    cells: usize,
    point: &[u8],
) -> Result<u64, Refusal>
    requires tables { (length coeffs.now ≡ cells * 8) × (length point.now ≡ length settings.now.support.now * 8) × (length settings.now.support.now ≤ 20) }
    requires room { (cells ≤ ROOM) × (ROOM ≤ byte_limit) }
    ensures { let s = settings.now in said result ≡ value_reply s.total s.bitwidth s.support.now (degrees_of s)
        (decoded coeffs.now) (decoded point.now) }
{
    let mut coordinates = [0u64; 20];
    let mut read = [0u64; ROOM];
    let coordinates = &mut coordinates[..settings.support.len()];
    let read = &mut read[..cells];
    codec::decode(point, coordinates);
    codec::decode(coeffs, read);
    poly::value(read, settings, coordinates)
}
