// The system of the bare solver: a lent table, with its rows one behind the other, and a lent right side. The functions on its parts take them one by one:
// of a `&mut Table` each contract would also have to say that the lent tables, the marks and the sizes are still the same.
ghost use Rattle.std.specs.Prelude.{◌≡◌, ℕ, ◌+◌, ◌-◌, ◌*◌, ◌/◌, ◌%◌, ◌^◌, ◌<◌, ◌≤◌, false, length, refl};
ghost use Rattle.std.proofs.Common.{◌∙◌};
ghost use Rattle.meaning.specs.Tables.{at};
ghost use Rattle.meaning.specs.Factorials.{twos_of};
ghost use Rattle.meaning.specs.Inverses.{inverse};
ghost use Rattle.meaning.specs.Elimination.{State, step};
ghost use Rattle.two_adic_solver.specs.ShownStates.{Shows};
ghost use Rattle.two_adic_solver.specs.Rows.{Sizes};
ghost use Rattle.two_adic_solver.specs.Shown.{cleared_row, stepped, Behind, Clearing, PivotPart};

use crate::pivot::Pivot;
use crate::system::System;
use crate::width::Width;

// The entries, the right side and the marks of the used rows, how many columns there are, and the width.
#[derive(Drop)]
pub(crate) struct Table<'a> {
    pub entries: &'a mut [u64],
    pub right: &'a mut [u64],
    pub used: &'a mut [bool],
    pub columns: usize,
    pub width: Width,
    ghost sizes: { Sizes columns entries.now right.now },
    ghost marks: { length right.now ≤ length used.now },
}

// Subtracts a part of the pivot row from one row, as often as it takes to clear the entry in the pivot's column. `source` has the part, from column `from`
// on; `side` is subtracted as often from the right side.
fn clear_row(
    entries: &mut [u64],
    right: &mut [u64],
    source: &[u64],
    side: u64,
    columns: usize,
    pivot: Pivot,
    from: usize,
    row: usize,
)
    requires sizes { Sizes columns entries.old right.old × (row < length right.old) }
    requires in_columns { (pivot.column < columns) × (from + length source.now ≤ columns) }
    ensures { (s : State) (e : ℕ) (part : ℕ → ℕ) → Shows (length right.old) columns s entries.old right.old
        → PivotPart pivot.width.bits columns from e pivot.twos pivot.inverse source.now side part
        → ((j : ℕ) → s.entry row j < 2 ^ pivot.width.bits)
        → Shows (length right.old) columns
        (cleared_row false pivot.width.bits pivot.twos e part pivot.column row s) entries.new right.new }
{
    let start = row * columns;
    let entry = entries[start + pivot.column];
    if entry == 0 {
        return;
    }
    let q = pivot.multiplier(entry);
    let target = start + from;
    let part = &mut entries[target..target + source.len()];
    pivot.width.subtract_row(part, source, q);
    right[row] = pivot.width.less(right[row], q, side);
}

// Subtracts the part of the pivot row between the columns `from` and `end` from the rows that are not used, and `side` from their right sides. The part is
// copied to `room` first; the pivot row itself is marked as used.
fn clear_part(
    entries: &mut [u64],
    right: &mut [u64],
    used: &[bool],
    room: &mut [u64],
    side: u64,
    columns: usize,
    pivot: Pivot,
    from: usize,
    end: usize,
)
    requires sizes { Sizes columns entries.old right.old × (pivot.row < length right.old) }
    requires in_columns { (length right.old ≤ length used.now) × (pivot.column ≤ from) × (from < end) × (end ≤ columns) × (end - from ≤ length room.old) }
    ensures { (s : State) (bound : ℕ) → Clearing pivot.width.bits (length right.old) pivot.column pivot.row used.now s
        → pivot.twos ≡ twos_of pivot.width.bits (s.entry pivot.row pivot.column)
        → pivot.inverse ≡ inverse (s.entry pivot.row pivot.column / 2 ^ pivot.twos) (pivot.width.bits - pivot.twos)
        → Behind pivot.width.bits (length right.old) columns pivot.column pivot.row end side bound s entries.old right.old
        → Shows (length right.old) columns (stepped pivot.width.bits (length right.old) s pivot.column (λ i. from))
        entries.new right.new }
{
    let start = pivot.row * columns;
    tables::copy(&entries[start + from..start + end], &mut room[..end - from]);
    for row in 0..right.len() {
        if !used[row] {
            let part = &room[..end - from];
            clear_row(entries, right, part, side, columns, pivot, from, row);
        }
    }
}

// How many numbers there are up to the last that is not 0.
fn span(list: &[u64]) -> usize
    ensures { (result ≤ length list.now) × ((j : ℕ) → result ≤ j → at list.now j ≡ 0) }
{
    list.iter()
        .rposition(|n| *n != 0)
        .map_or(0, |last| last + 1)
}

// Where a part that ends at `end` begins: at the column, if the room is large enough.
fn part_start(column: usize, end: usize, room: usize) -> usize
    requires { (column < end) × (0 < room) }
    ensures { (column ≤ result) × (result < end) × (end - result ≤ room) }
{
    if end - column <= room {
        column
    } else {
        end - room
    }
}

// Clears a column: its pivot row, which is marked as used, is subtracted from the rows that are not, up to its last entry that is not 0, in parts as large
// as `room`, the last one first: the entries in the column, which say how often, are there to the end. The right sides go with the part that is done first.
fn clear_in_parts(
    entries: &mut [u64],
    right: &mut [u64],
    used: &[bool],
    room: &mut [u64],
    columns: usize,
    column: usize,
    row: usize,
    width: Width,
)
    requires sizes { Sizes columns entries.old right.old × (row < length right.old) }
    requires in_columns { (length right.old ≤ length used.now) × (column < columns) × (0 < length room.old)
        × (twos_of width.bits (at entries.old (row * columns + column)) < width.bits) }
    ensures { (s : State) → Shows (length right.old) columns s entries.old right.old
        → Clearing width.bits (length right.old) column row used.now s
        → Shows (length right.old) columns (step width.bits (length right.old) s column) entries.new right.new }
{
    let start = row * columns;
    let pivot = Pivot::new(entries[start + column], row, column, width);
    let mut side = right[row];
    let mut end = column + span(&entries[start + column..start + columns]);
    // No iterator has these ends: `rchunks` would lend the row while its table is written.
    while column < end {
        let from = part_start(column, end, room.len());
        clear_part(entries, right, used, room, side, columns, pivot, from, end);
        side = 0;
        end = from;
    }
}

impl System for Table<'_> {
    // It is a local array of the elimination: that it lies apart from the lent tables the compiler need not test.
    type Room = [u64; 256];

    ghost entries = { λ t. t.entries.now };

    ghost right = { λ t. t.right.now };

    ghost used = { λ t. t.used.now };

    ghost columns = { λ t. t.columns };

    ghost width = { λ t. t.width.bits };

    ghost same = { λ t u. (u.entries.ghost_name ≡ t.entries.ghost_name) × (u.right.ghost_name ≡ t.right.ghost_name)
        × (length u.right.now ≡ length t.right.now) × (u.columns ≡ t.columns) × (u.width.bits ≡ t.width.bits) };

    fn room() -> [u64; 256] {
        [0; 256]
    }

    fn right(&self) -> &[u64] {
        self.right
    }

    fn used(&self) -> &[bool] {
        self.used
    }

    fn columns(&self) -> usize {
        self.columns
    }

    fn width(&self) -> Width {
        self.width
    }

    fn entry(&self, row: usize, column: usize) -> u64 {
        self.entries[row * self.columns + column]
    }

    fn behind(&self, row: usize, column: usize) -> &[u64] {
        let start = row * self.columns;
        &self.entries[start + column + 1..start + self.columns]
    }

    fn reduce(&mut self) {
        self.width.reduce(self.entries);
        self.width.reduce(self.right);
    }

    fn clear_column(&mut self, room: &mut [u64; 256], column: usize, row: usize) {
        let used = &mut *self.used;
        used[row] = true;
        clear_in_parts(
            self.entries,
            self.right,
            used,
            room,
            self.columns,
            column,
            row,
            self.width,
        );
    }

    ghost whole = { λ t. t.sizes.0 };

    ghost marks = { λ t. t.marks };

    ghost same_refl = { λ t. (refl, refl, refl, refl, refl) };

    ghost same_trans = { λ t u v p q. (q.0 ∙ p.0, q.1 ∙ p.1, q.2 ∙ p.2, q.3 ∙ p.3, q.4 ∙ p.4) };

    ghost same_rows = { λ t u p. p.2 };

    ghost same_columns = { λ t u p. p.3 };

    ghost same_width = { λ t u p. p.4 };
}
