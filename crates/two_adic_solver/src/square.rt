// The system of the four by four solver: an array of arrays, and an array of right sides.
ghost use Rattle.std.specs.Prelude.{◌≡◌, ℕ, ◌+◌, ◌-◌, ◌*◌, ◌/◌, ◌%◌, ◌^◌, ◌<◌, ◌≤◌, false, length, slice_index_or, refl};
ghost use Rattle.std.proofs.Common.{ap, sym, le_of_eq, ◌∙◌};
ghost use Rattle.meaning.specs.Tables.{tabulate, at};
ghost use Rattle.meaning.specs.Factorials.{twos_of};
ghost use Rattle.meaning.specs.Inverses.{inverse};
ghost use Rattle.meaning.specs.Elimination.{State, joined, step};
ghost use Rattle.two_adic_solver.specs.ShownStates.{Shows};
ghost use Rattle.two_adic_solver.specs.Fixed.{Square, joined_length};
ghost use Rattle.two_adic_solver.specs.Rows.{Subtracted};
ghost use Rattle.two_adic_solver.specs.Shown.{cleared_row, Clearing};

use crate::pivot::Pivot;
use crate::system::System;
use crate::width::Width;

// Every entry modulo 2^w.
fn reduce_rows(matrix: &mut [[u64; 4]; 4], width: Width)
    requires { Square matrix.old }
    ensures { Square matrix.new × (joined matrix.new
        ≡ tabulate (length (joined matrix.old)) (λ n. at (joined matrix.old) n % 2 ^ width.bits)) }
{
    for row in matrix.iter_mut() {
        width.reduce(row);
    }
}

// Row `target` less q times the pivot row, from the pivot's column on.
fn subtract_row(matrix: &mut [[u64; 4]; 4], pivot: Pivot, target: usize, q: u64)
    requires { Square matrix.old × (pivot.row < 4) × (target < 4) × (pivot.column < 4) }
    ensures { Square matrix.new × Subtracted (2 ^ pivot.width.bits) q (target * 4 + pivot.column) (4 - pivot.column)
        (λ k. at (joined matrix.old) (pivot.row * 4 + pivot.column + k)) (joined matrix.old) (joined matrix.new) }
{
    // An index by hand: two rows of one array. `Width::subtract_row` on a part of the one and a copy of the other was tried, and what the array then has was
    // not proved.
    for k in pivot.column..4 {
        matrix[target][k] = pivot.width.less(matrix[target][k], q, matrix[pivot.row][k]);
    }
}

// Four equations in four unknowns, the marks of their rows, and the width.
#[derive(Drop)]
pub(crate) struct Four {
    pub entries: [[u64; 4]; 4],
    pub right: [u64; 4],
    pub used: [bool; 4],
    pub width: Width,
    ghost square: { Square entries },
    ghost sides: { (length right ≡ 4) × (length used ≡ 4) },
}

impl Four {
    // Clears the pivot's column in one row, unless it is used: the pivot row is subtracted as often as it takes, from that column on and in the right side.
    // The table's `clear_row` is another: it is lent its rows and a copy of a part of the pivot row, where this one reads the pivot row in its place.
    fn clear_row(&mut self, pivot: Pivot, row: usize)
        requires { (pivot.column < 4) × (pivot.row < 4) × (row < 4) }
        ensures kept { (self.new.used ≡ self.old.used) × (self.new.width.bits ≡ self.old.width.bits) }
        ensures cleared { (s : State)
            → Shows (length self.old.right) 4 s (joined self.old.entries) self.old.right
            → pivot.inverse ≡ inverse (s.entry pivot.row pivot.column / 2 ^ pivot.twos) (pivot.width.bits - pivot.twos)
            → ((j : ℕ) → s.entry row j < 2 ^ pivot.width.bits) → ((j : ℕ) → j < pivot.column → s.entry pivot.row j ≡ 0)
            → Shows (length self.old.right) 4
            (cleared_row (slice_index_or self.old.used row false) pivot.width.bits pivot.twos (s.entry pivot.row pivot.column) (s.entry pivot.row)
            pivot.column row s)
            (joined self.new.entries) self.new.right }
    {
        if self.used[row] {
            return;
        }
        let entry = self.entries[row][pivot.column];
        if entry == 0 {
            return;
        }
        let q = pivot.multiplier(entry);
        subtract_row(&mut self.entries, pivot, row, q);
        self.right[row] = pivot.width.less(self.right[row], q, self.right[pivot.row]);
    }
}

impl System for Four {
    type Room = ();

    ghost entries = { λ f. joined f.entries };

    ghost right = { λ f. f.right };

    ghost used = { λ f. f.used };

    ghost columns = { λ _. 4 };

    ghost width = { λ f. f.width.bits };

    ghost same = { λ f g. (length g.right ≡ length f.right) × (g.width.bits ≡ f.width.bits) };

    fn room() {}

    fn right(&self) -> &[u64] {
        &self.right
    }

    fn used(&self) -> &[bool] {
        &self.used
    }

    fn columns(&self) -> usize {
        4
    }

    fn width(&self) -> Width {
        self.width
    }

    fn entry(&self, row: usize, column: usize) -> u64 {
        self.entries[row][column]
    }

    fn behind(&self, row: usize, column: usize) -> &[u64] {
        &self.entries[row][column + 1..]
    }

    fn reduce(&mut self) {
        reduce_rows(&mut self.entries, self.width);
        self.width.reduce(&mut self.right);
    }

    fn clear_column(&mut self, _room: &mut (), column: usize, row: usize) {
        self.used[row] = true;
        let pivot = Pivot::new(self.entries[row][column], row, column, self.width);
        for target in 0..4 {
            self.clear_row(pivot, target);
        }
    }

    ghost whole = { λ f. joined_length f.square ∙ ap (◌* 4) (sym f.sides.0) };

    ghost marks = { λ f. le_of_eq (f.sides.0 ∙ sym f.sides.1) };

    ghost same_refl = { λ f. (refl, refl) };

    ghost same_trans = { λ f g h p q. (q.0 ∙ p.0, q.1 ∙ p.1) };

    ghost same_rows = { λ f g p. p.0 };

    ghost same_columns = { λ f g p. refl };

    ghost same_width = { λ f g p. p.1 };
}
