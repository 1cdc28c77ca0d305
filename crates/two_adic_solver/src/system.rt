// A system of equations modulo 2^w: a matrix, and a right side and a mark for each of its rows. What the elimination reads of it, and does to it.
// Contracts speak of the matrix as its rows one behind the other. The answer is no part of a system: each method would have to say that it stays as it is.
// That a column is below the number of columns is a clause: a type that says so would have to have that number in it.
ghost use Rattle.std.specs.Prelude.{◌≡◌, ℕ, ◌+◌, ◌*◌, ◌%◌, ◌^◌, ◌<◌, ◌≤◌, Bool, true, List, length, slice_set};
ghost use Rattle.meaning.specs.Tables.{tabulate, at};
ghost use Rattle.meaning.specs.Factorials.{twos_of};
ghost use Rattle.meaning.specs.Elimination.{State, step};
ghost use Rattle.theory.specs.Parts.{part};
ghost use Rattle.two_adic_solver.specs.ShownStates.{Shows};
ghost use Rattle.two_adic_solver.specs.Shown.{Clearing};

use crate::width::Width;

pub(crate) trait System {
    // Room for parts of a pivot row.
    type Room: Drop;

    ghost entries: { Self → List ℕ };

    ghost right: { Self → List ℕ };

    ghost used: { Self → List Bool };

    ghost columns: { Self → ℕ };

    ghost width: { Self → ℕ };

    // It lies where it lay, with as many rows and columns, and has the same width.
    ghost same: { Self → Self → Type 0 };

    fn room() -> Self::Room;

    fn right(&self) -> &[u64]
        ensures { result.now ≡ right self.now };

    // The rows that have a pivot are marked.
    fn used(&self) -> &[bool]
        ensures { result.now ≡ used self.now };

    fn columns(&self) -> usize
        ensures { result ≡ columns self.now };

    fn width(&self) -> Width
        ensures { result.bits ≡ width self.now };

    fn entry(&self, row: usize, column: usize) -> u64
        requires { (row < length (right self.now)) × (column < columns self.now) }
        ensures { result ≡ at (entries self.now) (row * columns self.now + column) };

    // The entries of a row behind a column.
    fn behind(&self, row: usize, column: usize) -> &[u64]
        requires { (row < length (right self.now)) × (column < columns self.now) }
        ensures { result.now ≡ part (row * columns self.now + column + 1) (row * columns self.now + columns self.now) (entries self.now) };

    // Every entry and every right side modulo 2^w.
    fn reduce(&mut self)
        ensures kept { same self.old self.new × (used self.new ≡ used self.old) }
        ensures entries { entries self.new ≡ tabulate (length (entries self.old)) (λ n. at (entries self.old) n % 2 ^ width self.old) }
        ensures right { right self.new ≡ tabulate (length (right self.old)) (λ n. at (right self.old) n % 2 ^ width self.old) };

    // Clears a column: its pivot row, `row`, is marked as used, and subtracted from the rows that are not, and from their right sides.
    fn clear_column(&mut self, room: &mut Self::Room, column: usize, row: usize)
        requires pivot { (column < columns self.old) × (row < length (right self.old))
            × (twos_of (width self.old) (at (entries self.old) (row * columns self.old + column)) < width self.old) }
        ensures kept { same self.old self.new × (used self.new ≡ slice_set (used self.old) row true) }
        ensures cleared { (s : State)
            → Shows (length (right self.old)) (columns self.old) s (entries self.old) (right self.old)
            → Clearing (width self.old) (length (right self.old)) column row (slice_set (used self.old) row true) s
            → Shows (length (right self.old)) (columns self.old) (step (width self.old) (length (right self.old)) s column)
            (entries self.new) (right self.new) };

    ghost whole: { (m : Self) → length (entries m) ≡ length (right m) * columns m };

    ghost marks: { (m : Self) → length (right m) ≤ length (used m) };

    ghost same_refl: { (m : Self) → same m m };

    ghost same_trans: { (l m n : Self) → same l m → same m n → same l n };

    ghost same_rows: { (m n : Self) → same m n → length (right n) ≡ length (right m) };

    ghost same_columns: { (m n : Self) → same m n → columns n ≡ columns m };

    ghost same_width: { (m n : Self) → same m n → width n ≡ width m };
}
