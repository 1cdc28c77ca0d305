// The elimination of a system: column after column a pivot row is found, and cleared from the rows that are not used.
ghost use Rattle.std.specs.Prelude.{◌≡◌, ℕ, ◌+◌, ◌<◌, false, length, slice_index_or, unwrap_or, IfSome};
ghost use Rattle.meaning.specs.Elimination.{State, lowest, step};
ghost use Rattle.two_adic_solver.specs.Rows.{height_of};
ghost use Rattle.two_adic_solver.specs.Shown.{Shown};
ghost use Rattle.two_adic_solver.specs.Solved.{end_of};

use crate::system::System;

// The row of a column's pivot: the least twos among the unused rows whose entry is not 0, the first on a tie. It ends at the first odd entry, which no other
// is below.
fn find_pivot<S: System>(system: &S, column: usize) -> Option<usize>
    requires { column < S.columns system.now }
    ensures inside { IfSome result (λ row. row < length (S.right system.now)) }
    ensures lowest { let rows = length (S.right system.now) in
        unwrap_or result rows
        ≡ (lowest rows (S.width system.now)
        (height_of (S.width system.now) (S.columns system.now) (S.entries system.now) (S.used system.now) column) rows).row }
{
    let width = system.width();
    let mut found = None;
    let mut least = width.bits;
    for row in 0..system.right().len() {
        if !system.used()[row] {
            let here = width.twos(system.entry(row, column));
            if here < least {
                found = Some(row);
                least = here;
                if least == 0 {
                    return found;
                }
            }
        }
    }
    found
}

// One column: its pivot row is found, noted in `answer`, marked as used, and subtracted from the rows that are not used. Without a pivot the number of
// rows is noted, which is no row: the lent answer holds the pivot rows, since there is no heap.
fn eliminate_column<S: System>(
    system: &mut S,
    answer: &mut [u64],
    room: &mut S::Room,
    column: usize,
)
    requires sizes { (length answer.old ≡ S.columns system.old) × (column < S.columns system.old) }
    ensures kept { S.same system.old system.new }
    ensures shown { let rows = length (S.right system.old) in
        (s : State)
        → Shown (S.width system.old) rows (S.columns system.old) s column (S.entries system.old) (S.right system.old) (S.used system.old) answer.old
        → Shown (S.width system.old) rows (S.columns system.old) (step (S.width system.old) rows s column) (column + 1)
        (S.entries system.new) (S.right system.new) (S.used system.new) answer.new }
{
    let Some(row) = find_pivot(system, column) else {
        answer[column] = system.right().len() as u64;
        return;
    };
    answer[column] = row as u64;
    system.clear_column(room, column, row);
}

// A system of which no row is marked: every entry is reduced, and then all columns, one after the other; `answer` ends with their pivot rows.
pub(crate) fn eliminate<S: System>(system: &mut S, answer: &mut [u64])
    requires sizes { length answer.old ≡ S.columns system.old }
    requires unmarked { (i : ℕ) → i < length (S.right system.old) → slice_index_or (S.used system.old) i false ≡ false }
    ensures kept { S.same system.old system.new }
    ensures shown { let end = end_of (S.width system.old) (S.columns system.old) (S.entries system.old) (S.right system.old) in
        Shown (S.width system.old) (length (S.right system.old)) (S.columns system.old) end (S.columns system.old)
        (S.entries system.new) (S.right system.new) (S.used system.new) answer.new }
{
    system.reduce();
    let mut room = S::room();
    for column in 0..system.columns() {
        eliminate_column(system, answer, &mut room, column);
    }
}
