// The four by four solver of linear systems modulo 2^w, on arrays by value. It is the bare solver's elimination and back-substitution.
ghost use Rattle.std.specs.Prelude.{◌≡◌};
ghost use Rattle.meaning.specs.Elimination.{joined, fixed_number, fixed_answer};
ghost use Rattle.two_adic_solver.specs.Fixed.{solved_number, solved_answer};
ghost use Rattle.two_adic_solver.specs.Solves.{Solves};

use crate::solution;
use crate::square::Four;
use crate::width::Width;
use answers::Refusal;

// The test of the width, and the system where it passes. Apart from the call, so that what an answer solves is shown once and not at each return.
fn solve_checked(matrix: [[u64; 4]; 4], right: [u64; 4], bitwidth: u32) -> Result<[u64; 4], Refusal>
    ensures { (solved_number result ≡ fixed_number bitwidth matrix right) × (solved_answer result ≡ fixed_answer bitwidth matrix right) }
{
    if !settings::width_fits(bitwidth) {
        return Err(Refusal::WidthOutOfRange);
    }
    let mut four = Four {
        entries: matrix,
        right,
        used: [false; 4],
        width: Width { bits: bitwidth },
    };
    let mut answer = [0; 4];
    solution::solve(&mut four, &mut answer)?;
    Ok(answer)
}

// Solves four equations in four unknowns modulo 2^bitwidth, as the bare solver does for the rows one behind the other and four columns: the same
// number, 3 where the width is not 2 to 64 and 10 where the elimination finds no answer, and the same answer.
pub fn solve_2adic_fixed(
    matrix: [[u64; 4]; 4],
    right: [u64; 4],
    bitwidth: u32,
) -> Result<[u64; 4], Refusal>
    ensures says { solved_number result ≡ fixed_number bitwidth matrix right }
    ensures answer { solved_answer result ≡ fixed_answer bitwidth matrix right }
    ensures solves { solved_number result ≡ 0 → Solves bitwidth 4 (joined matrix) right (solved_answer result) }
{
    solve_checked(matrix, right, bitwidth)
}
