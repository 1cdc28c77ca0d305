// The solvers and the fit. A case is `6 WIDTH COLUMNS ROWS ENTRIES`, the matrix and the right side, for the bare solver: the number, the answer, matrix and
// right side as they are left are printed; `7 WIDTH`, sixteen entries and four right sides, for the four by four solver: the number and the answer; or
// `8 WIDTH MAX GRID K ROWS ENTRIES CELLS`, ROWS weights and ROWS targets, for the fit: the number, degree_used and the CELLS coefficients.
// Each takes the sink and the line: a struct of these two would be no plainer.
use crate::print;
use room::sizes::FitSettings;
use std::io;
use std::io::Write;
use two_adic_solver::fixed::solve_2adic_fixed;
use two_adic_solver::solver::solve_2adic;
use weighted_poly_fit::fit::recover_weighted_poly;

// The bare solver. Matrix and right side are eliminated in place, in a copy of the line.
pub(crate) fn replay_solver<W: Write>(sink: &mut W, numbers: &[u64; 128]) -> io::Result<()> {
    let columns = (numbers[2] % 8) as usize;
    let rows = (numbers[3] % 12) as usize;
    let size = (numbers[4] % 64) as usize;
    let width = print::low32(numbers[1]);
    let mut line = *numbers;
    let (matrix, right) = line[5..5 + size + rows].split_at_mut(size);
    let mut room = [0; 8];
    let answer = &mut room[..columns];
    let outcome = solve_2adic(matrix, right, columns, width, answer);
    print::outcome(sink, outcome)?;
    print::table(sink, answer)?;
    print::table(sink, matrix)?;
    print::table(sink, right)?;
    print::line_end(sink)
}

// The four by four solver.
pub(crate) fn replay_fixed<W: Write>(sink: &mut W, n: &[u64; 128]) -> io::Result<()> {
    let rows = [
        [n[2], n[3], n[4], n[5]],
        [n[6], n[7], n[8], n[9]],
        [n[10], n[11], n[12], n[13]],
        [n[14], n[15], n[16], n[17]],
    ];
    let right = [n[18], n[19], n[20], n[21]];
    let found = solve_2adic_fixed(rows, right, print::low32(n[1]));
    print::outcome(sink, found.map(|_| ()))?;
    print::table(sink, &found.unwrap_or([0; 4]))?;
    print::line_end(sink)
}

// The fit, with its own matrix and right side. Nothing is printed of a case that has more than 20 variables.
pub(crate) fn replay_fit<W: Write>(sink: &mut W, numbers: &[u64; 128]) -> io::Result<()> {
    let k = (numbers[4] % 32) as usize;
    let rows = (numbers[5] % 61) as usize;
    let entries = (numbers[6] % 129) as usize;
    let cells = (numbers[7] % 129) as usize;
    let Some(support) = crate::VARIABLES.get(..k) else {
        return Ok(());
    };
    let settings = FitSettings {
        support,
        total: k as u32,
        bitwidth: print::low32(numbers[1]),
        max_degree: print::low8(numbers[2]),
        grid_degree: print::low8(numbers[3]),
    };
    let end = 8 + rows;
    let weights = &numbers[8..end];
    let targets = &numbers[end..end + rows];
    let mut matrix = [0; 128];
    let mut right = [0; 128];
    let mut room = [0; 128];
    let out = &mut room[..cells];
    let answer = recover_weighted_poly(
        weights,
        targets,
        &settings,
        &mut matrix[..entries],
        &mut right[..rows],
        out,
    );
    print::answer(sink, answer)?;
    print::table(sink, out)?;
    print::line_end(sink)
}
