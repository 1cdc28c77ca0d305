// The database's two calls one after the other. What the calls said is a struct (`lib` says why).
ghost use Rattle.std.specs.Prelude.{◌≡◌, ◌*◌, List, ℤ, length};
ghost use Rattle.meaning.specs.Polynomials.{Term};
ghost use Rattle.meaning.specs.Replies.{accepted};
ghost use Rattle.demand3.specs.Words.{polynomial_value, PointOf, Agreeing};
ghost use Rattle.answers.specs.Said.{said, said_number};
ghost use Rattle.byte_calls.specs.Bytes.{decoded};
ghost use Rattle.byte_calls.specs.Forms.{byte_degrees};

use answers::Refusal;
use byte_calls::ByteSettings;

// What both said.
#[derive(Clone, Copy, Debug, PartialEq, Eq)]
struct LevelOutcomes {
    recovered: Result<(), Refusal>,
    level: Result<u64, Refusal>,
}

// The value of what recovery left, in bytes, is that of every polynomial within the box that agrees with the grid.
fn level_of_recovered(
    values: &[u8],
    settings: &ByteSettings,
    point: &[u8],
    out: &mut [u8],
) -> LevelOutcomes
    ensures { let s = settings.now in said_number result.recovered ≡ 0 → length point.now ≡ s.count * 8
        → (p : List Term) → Agreeing s.bitwidth (byte_degrees s) (decoded values.now) p
        → (zs : List ℤ) → PointOf s.bitwidth (byte_degrees s) (decoded point.now) zs
        → said result.level ≡ accepted (polynomial_value s.bitwidth (byte_degrees s) p zs) }
{
    let recovered = byte_calls::recover(values, settings, out);
    let level = byte_calls::value(out, settings, point);
    LevelOutcomes { recovered, level }
}
