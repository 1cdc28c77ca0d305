// The bare solver of linear systems modulo 2^w. Matrix, right side and width are parameters by themselves, as the C interface has them.
ghost use Rattle.std.specs.Prelude.{◌≡◌};
ghost use Rattle.meaning.specs.Elimination.{solver_number, solver_matrix, solver_right, solver_answer};
ghost use Rattle.two_adic_solver.specs.Solves.{Solves};
ghost use Rattle.answers.specs.Said.{said_number};

use crate::rooms;
use crate::width::Width;
use answers::Refusal;

// The tests of a call, in the order 3, 8, 9, and the system where it passes them. Apart from the call, so that what an answer solves is shown once and not
// at each return.
fn solve_checked(
    matrix: &mut [u64],
    right: &mut [u64],
    columns: usize,
    bitwidth: u32,
    answer: &mut [u64],
) -> Result<(), Refusal>
    ensures { (said_number result ≡ solver_number bitwidth columns matrix.old right.old answer.old)
        × (matrix.new ≡ solver_matrix bitwidth columns matrix.old right.old answer.old)
        × (right.new ≡ solver_right bitwidth columns matrix.old right.old answer.old)
        × (answer.new ≡ solver_answer bitwidth columns matrix.old right.old answer.old) }
{
    if !settings::width_fits(bitwidth) {
        return Err(Refusal::WidthOutOfRange);
    }
    if (settings::TABLE_LIMIT as usize) < matrix.len() {
        return Err(Refusal::TooLarge);
    }
    if (settings::TABLE_LIMIT as usize) < columns {
        return Err(Refusal::TooLarge);
    }
    if columns == 0 {
        return Err(Refusal::WrongLength);
    }
    let rows = matrix.len() / columns;
    if rows * columns != matrix.len() {
        return Err(Refusal::WrongLength);
    }
    if right.len() != rows {
        return Err(Refusal::WrongLength);
    }
    if answer.len() != columns {
        return Err(Refusal::WrongLength);
    }
    let width = Width { bits: bitwidth };
    rooms::solve_fitting(matrix, right, columns, width, answer)
}

// Solves a system of equations modulo 2^bitwidth. The matrix has its rows one behind the other, each of `columns` entries; the row count is its length
// over `columns`, and `right` has a right side for each row. Entries are reduced first. On success `answer` has a value for each column that satisfies
// every row; where the elimination finds none the number is 10 and the answer is zero, which does not say that nothing solves the system. Matrix and
// right side are left as eliminated, after 10 too. Other refusals, in the order 3, 8, 9, leave all three tables as they were: the width is 2 to 64, the
// matrix has 65,536 entries and columns at most, there is a column, and the lengths fit.
pub fn solve_2adic(
    matrix: &mut [u64],
    right: &mut [u64],
    columns: usize,
    bitwidth: u32,
    answer: &mut [u64],
) -> Result<(), Refusal>
    ensures says { said_number result ≡ solver_number bitwidth columns matrix.old right.old answer.old }
    ensures matrix { matrix.new ≡ solver_matrix bitwidth columns matrix.old right.old answer.old }
    ensures right { right.new ≡ solver_right bitwidth columns matrix.old right.old answer.old }
    ensures answer { answer.new ≡ solver_answer bitwidth columns matrix.old right.old answer.old }
    ensures solves { said_number result ≡ 0 → Solves bitwidth columns matrix.old right.old answer.new }
{
    solve_checked(matrix, right, columns, bitwidth, answer)
}
