// Calls on linear systems modulo 2^w: the solvers of `two_adic_solver`. What a call does is said there.
ghost use Rattle.std.specs.Prelude.{◌≡◌};
ghost use Rattle.meaning.specs.Elimination.{solver_number, solver_matrix, solver_right, solver_answer};
ghost use Rattle.two_adic_solver.specs.Solves.{Solves};
ghost use Rattle.cobra.specs.Systems.{four_number, four_answer};

use answers::Refusal;

// Solves a system by elimination in the lent matrix and right side.
#[unsafe(no_mangle)]
pub extern "C" fn cobra_solve_2adic(
    matrix: &mut [u64],
    right: &mut [u64],
    columns: usize,
    width: u32,
    answer: &mut [u64],
) -> u32
    ensures says { result ≡ solver_number width columns matrix.old right.old answer.old }
    ensures matrix { matrix.new ≡ solver_matrix width columns matrix.old right.old answer.old }
    ensures right { right.new ≡ solver_right width columns matrix.old right.old answer.old }
    ensures answer { answer.new ≡ solver_answer width columns matrix.old right.old answer.old }
    ensures solves { result ≡ 0 → Solves width columns matrix.old right.old answer.new }
{
    answers::outcome_code(two_adic_solver::solver::solve_2adic(
        matrix, right, columns, width, answer,
    ))
}

// Solves four equations in four unknowns. The matrix has sixteen entries, row behind row, right side and answer have four; another length is 9, after 3.
// Matrix and right side are not altered; the answer is zero after 10 and as it was after 3 and 9.
#[unsafe(no_mangle)]
pub extern "C" fn cobra_solve_2adic_fixed(
    matrix: &[u64],
    right: &[u64],
    width: u32,
    answer: &mut [u64],
) -> u32
    ensures says { result ≡ four_number width matrix.now right.now answer.old }
    ensures leaves { answer.new ≡ four_answer width matrix.now right.now answer.old }
    ensures solves { result ≡ 0 → Solves width 4 matrix.now right.now answer.new }
{
    if !settings::width_fits(width) {
        return u32::from(Refusal::WidthOutOfRange);
    }
    if matrix.len() != 16 || right.len() != 4 || answer.len() != 4 {
        return u32::from(Refusal::WrongLength);
    }
    // written out: `array::from_fn` would take two closures, one in the other, and `as_chunks` gives a slice, of which `try_from` would have to make the
    // array of rows; neither shows the layout better
    let rows = [
        [matrix[0], matrix[1], matrix[2], matrix[3]],
        [matrix[4], matrix[5], matrix[6], matrix[7]],
        [matrix[8], matrix[9], matrix[10], matrix[11]],
        [matrix[12], matrix[13], matrix[14], matrix[15]],
    ];
    let sides = [right[0], right[1], right[2], right[3]];
    let found = two_adic_solver::fixed::solve_2adic_fixed(rows, sides, width);
    answer.copy_from_slice(&found.unwrap_or([0; 4]));
    answers::outcome_code(found.map(|_| ()))
}
