// Lines of degree 3, each without a loop, by what a transform makes of four numbers. They take a stride and no `Block`, whose degree is 3.
ghost use Rattle.std.specs.Prelude.{◌≡◌, ◌+◌, ◌*◌, ◌%◌, ◌^◌, ◌<◌, List, ℕ, length};
ghost use Rattle.meaning.specs.Tables.{tabulate, at};
ghost use Rattle.lines.specs.FlatTables.{lined, blocked};
ghost use Rattle.lines.specs.RowLoops.{Rows};

use crate::FourTransform;

// The line with offset i in the rows of a block. The first and the last number, which many transforms leave, are written first, so that the compiler sees
// that nothing is to be written there.
fn four_row<T: FourTransform>(transform: T, part: &mut [u64], stride: usize, i: usize)
    requires { (i < stride) × (length part.old ≡ stride * 4) }
    ensures { (t : List ℕ) → Rows (T.line transform (2 ^ 64)) stride t part.old i
        → Rows (T.line transform (2 ^ 64)) stride t part.new (i + 1) }
{
    let twice = stride + stride;
    let thrice = twice + stride;
    let four = transform.four([part[i], part[stride + i], part[twice + i], part[thrice + i]]);
    part[i] = four[0];
    part[thrice + i] = four[3];
    part[stride + i] = four[1];
    part[twice + i] = four[2];
}

// The lines of a block, one a turn.
fn rows_by_one<T: FourTransform>(transform: T, part: &mut [u64], stride: usize)
    requires { length part.old ≡ stride * 4 }
    ensures { part.new ≡ tabulate (length part.old) (lined (T.line transform (2 ^ 64)) stride 3 (at part.old)) }
{
    // Never so, as the next one: said for the compiler, which then knows that the distances are not negative.
    if 0x1000_0000_0000_0000 <= stride + stride {
        return;
    }
    if 0x1000_0000_0000_0000 <= stride + stride + stride {
        return;
    }
    for i in 0..stride {
        four_row(transform, part, stride, i);
    }
}

// Two a turn, so that the compiler makes single products, which are quicker than its vectors (docs/SPEED.md, Conversions); the last one may be left over.
fn rows_by_two<T: FourTransform>(transform: T, part: &mut [u64], stride: usize)
    requires { length part.old ≡ stride * 4 }
    ensures { part.new ≡ tabulate (length part.old) (lined (T.line transform (2 ^ 64)) stride 3 (at part.old)) }
{
    let mut i = 0;
    while i + 1 < stride {
        four_row(transform, part, stride, i);
        four_row(transform, part, stride, i + 1);
        i += 2;
    }
    if i < stride {
        four_row(transform, part, stride, i);
    }
}

// The lines of a block, by what is fastest.
pub(crate) fn four_rows<T: FourTransform>(transform: T, part: &mut [u64], stride: usize)
    requires { length part.old ≡ stride * 4 }
    ensures { part.new ≡ tabulate (length part.old) (lined (T.line transform (2 ^ 64)) stride 3 (at part.old)) }
{
    if T::BY_TWOS {
        rows_by_two(transform, part, stride);
    } else {
        rows_by_one(transform, part, stride);
    }
}

// The lines of a first variable, which are the fours of neighbours of a table.
pub(crate) fn four_neighbours<T: FourTransform>(transform: T, table: &mut [u64])
    requires { length table.old % 4 ≡ 0 }
    ensures { table.new ≡ tabulate (length table.old) (blocked (T.line transform (2 ^ 64)) 1 3 (at table.old)) }
{
    // An index by hand: by `step_by` a turn takes two instructions more, and of parts that an iterator lends no proof knows what they end as.
    let mut i = 0;
    while i + 3 < table.len() {
        let four = transform.four([table[i], table[i + 1], table[i + 2], table[i + 3]]);
        table[i] = four[0];
        table[i + 3] = four[3];
        table[i + 1] = four[1];
        table[i + 2] = four[2];
        i += 4;
    }
}
