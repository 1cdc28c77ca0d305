// The system of the fit: filled into the scratch tables, and solved.
ghost use Rattle.std.specs.Prelude.{◌≡◌, ◌*◌, ◌≤◌, length, is_ok, IfErr};
ghost use Rattle.meaning.specs.Boxes.{cells};
ghost use Rattle.meaning.specs.Elimination.{joined, system, eliminated};
ghost use Rattle.meaning.specs.Fit.{columns, fit_system};
ghost use Rattle.two_adic_solver.specs.Solved.{Concluded};
ghost use Rattle.weighted_poly_fit.specs.Fitting.{Solvable, Answered};
ghost use Rattle.answers.specs.Said.{said, code};

use crate::columns;
use crate::fit::Given;
use answers::Refusal;

// Solves the system of the matrix and the right side, which are used up, into `values`. Refused where the elimination finds no answer.
fn solve(
    matrix: &mut [u64],
    right: &mut [u64],
    values: &mut [u64],
    bitwidth: u32,
) -> Result<(), Refusal>
    requires { Solvable bitwidth matrix.old right.old values.old }
    ensures refusal { IfErr result (λ refusal. code refusal ≡ 10) }
    ensures concluded { Concluded bitwidth (length right.old) (length values.old)
        (eliminated bitwidth (length right.old) (length values.old)
        (system bitwidth (length values.old) matrix.old right.old)) values.new (is_ok result) }
{
    two_adic_solver::solver::solve_2adic(matrix, right, values.len(), bitwidth, values)
}

impl Given<'_> {
    // Lists the columns and fills the matrix and the right side of the system. `products` has `size` places for each coordinate below `side` and is used up.
    // Inlined, as below, into the fits of both rooms: as calls the two took 30 instructions more of a fit.
    #[inline(always)]
    pub(crate) fn fill_system(
        &self,
        products: &mut [u64],
        exponents: &mut [u8],
        matrix: &mut [u64],
        right: &mut [u64],
    )
        requires exponents_len { length exponents.old ≡ self.now.cols * length self.now.degrees.now }
        requires matrix_len { (length matrix.old ≡ length self.now.weights.now * self.now.cols) × (length self.now.targets.now ≡ length right.old)
            × (length products.old ≡ self.now.side * self.now.size) × (length self.now.weights.now ≡ cells self.now.grid.now) }
        ensures lists { exponents.new ≡ joined (columns self.now.degrees.now self.now.most) }
        ensures fills { let g = self.now in system g.bitwidth g.cols matrix.new right.new
            ≡ fit_system g.bitwidth g.grid.now (columns g.degrees.now g.most) g.weights.now g.targets.now }
    {
        // There is no heap: an array with room for the most variables.
        let mut current = [0u8; 20];
        columns::enumerate_basis(
            exponents,
            &mut current[..self.degrees.len()],
            self.degrees,
            self.most,
        );
        self.fill_matrix(products, exponents, matrix);
        self.fill_right(right);
    }

    // Solves the system and fills `out` with the box of the answer; the result is the degree used. Where the elimination finds no answer `out` gets zeros.
    // Matrix, right side and values are used up.
    #[inline(always)]
    pub(crate) fn answer_system(
        &self,
        exponents: &[u8],
        matrix: &mut [u64],
        right: &mut [u64],
        values: &mut [u64],
        out: &mut [u64],
    ) -> Result<u64, Refusal>
        requires solvable { Solvable self.now.bitwidth matrix.old right.old values.old }
        requires out_len { length out.old ≡ cells self.now.degrees.now }
        requires values_len { let g = self.now in
            (length values.old ≡ length (columns g.degrees.now g.most)) × (exponents.now ≡ joined (columns g.degrees.now g.most)) }
        ensures { let g = self.now in Answered g.bitwidth (length right.old) (length values.old) g.degrees.now
            (columns g.degrees.now g.most)
            (system g.bitwidth (length values.old) matrix.old right.old) out.new (said result) }
    {
        if let Err(refusal) = solve(matrix, right, values, self.bitwidth) {
            tables::clear(out);
            return Err(refusal);
        }
        let degree = self.fill_answer(exponents, values, out);
        Ok(degree)
    }
}
