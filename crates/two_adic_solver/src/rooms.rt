// Room for the marks of the used rows, in two sizes: there is no heap. The lent tables are parameters here: with a table as one parameter each contract would
// have to say that both lent tables are still the same.
ghost use Rattle.std.specs.Prelude.{◌≡◌, ℕ, ◌<◌, ◌≤◌, false, length, slice_index_or};
ghost use Rattle.two_adic_solver.specs.Rows.{Sizes};
ghost use Rattle.two_adic_solver.specs.Solved.{Finished};
ghost use Rattle.answers.specs.Said.{said_number};

use crate::solution;
use crate::table::Table;
use crate::width::Width;
use answers::Refusal;

// With room for the marks. The table is made here, in one function for both sizes, so that the compiler keeps its fields in registers.
fn solve_table(
    matrix: &mut [u64],
    right: &mut [u64],
    used: &mut [bool],
    columns: usize,
    width: Width,
    answer: &mut [u64],
) -> Result<(), Refusal>
    requires sizes { Sizes columns matrix.old right.old × (length answer.old ≡ columns) }
    requires marks { (length right.old ≤ length used.old) × ((i : ℕ) → i < length right.old → slice_index_or used.old i false ≡ false) }
    ensures { Finished width.bits columns matrix.old right.old matrix.new right.new answer.new (said_number result) }
{
    let mut table = Table {
        entries: matrix,
        right,
        used,
        columns,
        width,
    };
    solution::solve(&mut table, answer)
}

// With marks for so many rows.
fn solve_within<const ROWS: usize>(
    matrix: &mut [u64],
    right: &mut [u64],
    columns: usize,
    width: Width,
    answer: &mut [u64],
) -> Result<(), Refusal>
    requires sizes { Sizes columns matrix.old right.old × (length answer.old ≡ columns) }
    requires marks { (length right.old ≤ ROWS) × (ROWS ≤ 65536) }
    ensures { Finished width.bits columns matrix.old right.old matrix.new right.new answer.new (said_number result) }
{
    // There is no heap: an array with a mark for each row that there is room for.
    let mut used = [false; ROWS];
    solve_table(matrix, right, &mut used, columns, width, answer)
}

// With marks for 65,536 rows. The attribute keeps the compiler from laying the marks out in the frame of the small systems.
#[inline(never)]
fn solve_tall(
    matrix: &mut [u64],
    right: &mut [u64],
    columns: usize,
    width: Width,
    answer: &mut [u64],
) -> Result<(), Refusal>
    requires sizes { Sizes columns matrix.old right.old × (length answer.old ≡ columns) }
    ensures { Finished width.bits columns matrix.old right.old matrix.new right.new answer.new (said_number result) }
{
    solve_within::<65536>(matrix, right, columns, width, answer)
}

// A system that fits, with the room that it needs.
pub(crate) fn solve_fitting(
    matrix: &mut [u64],
    right: &mut [u64],
    columns: usize,
    width: Width,
    answer: &mut [u64],
) -> Result<(), Refusal>
    requires sizes { Sizes columns matrix.old right.old × (length answer.old ≡ columns) }
    ensures { Finished width.bits columns matrix.old right.old matrix.new right.new answer.new (said_number result) }
{
    if 256 < right.len() {
        return solve_tall(matrix, right, columns, width, answer);
    }
    solve_within::<256>(matrix, right, columns, width, answer)
}
