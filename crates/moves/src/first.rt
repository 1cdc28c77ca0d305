// The lines of a first variable moved by an offset, in place and modulo 2^64: they are neighbours in the table, one line behind the other. Several lines go at
// once, number by number: a number has the same factors in all of them, so that the factors are made once and the loop is long.
ghost use Rattle.std.specs.Prelude.{◌≡◌, suc, ◌+◌, ◌%◌, ◌^◌, ◌<◌, true, length};
ghost use Rattle.meaning.specs.Tables.{tabulate, at};
ghost use Rattle.theory.specs.MovedLines.{moved_line};
ghost use Rattle.lines.specs.FlatTables.{lined, blocked};
ghost use Rattle.moves.specs.NodeLines.{EachLine, GetsAdded, Passes, Moves, each_same, each_then};

use crate::pairs::{Pairs, make_passes};

// The lines, of degree + 1 numbers each, and the offset that they are moved by. The part and the pass stand beside it, as both change from call to call.
#[derive(Clone, Copy, Debug, PartialEq, Eq)]
pub(crate) struct Lines {
    pub(crate) degree: usize,
    pub(crate) offset: u64,
}

impl Lines {
    // Whether a table is cut into such lines. A single line needs no division.
    pub(crate) fn fit(self, table: &[u64]) -> bool
        requires { self.degree < 256 }
        ensures { result ≡ true → (self.degree < length table.now) × (length table.now % suc self.degree ≡ 0) }
    {
        let size = self.degree + 1;
        table.len() == size || size < table.len() && table.len() % size == 0
    }
}

// In every line number `place` gets `factor` times the next number added. The next function with `far` = 0 would leave out the last line,
// whose number has none two above it.
fn add_next(part: &mut [u64], degree: usize, place: usize, factor: u64)
    requires { (place < degree) × (degree < length part.old) }
    ensures { EachLine degree (GetsAdded (2 ^ 64) place factor 0) part.old part.new }
{
    let size = degree + 1;
    // An index by hand, as in the next one: its step is a line, and `step_by` takes two instructions more a turn.
    let mut i = place;
    while i + 1 < part.len() {
        part[i] = part[i].wrapping_add(arith::wrapping_mul(factor, part[i + 1]));
        i += size;
    }
}

// In every line number `place` gets `near` times the next number and `far` times the one after that added.
fn add_numbers(part: &mut [u64], degree: usize, place: usize, near: u64, far: u64)
    requires { (suc place < degree) × (degree < length part.old) }
    ensures { EachLine degree (GetsAdded (2 ^ 64) place near far) part.old part.new }
{
    let size = degree + 1;
    let mut i = place;
    while i + 2 < part.len() {
        part[i] = part[i].wrapping_add(arith::wrapping_mul(near, part[i + 1]).wrapping_add(
            arith::wrapping_mul(far, part[i + 2]),
        ));
        i += size;
    }
}

// The passes `done` + 1 and `done` over every line at once. The last number has no number two above it. One loop over a trait for the three pairs (here, below,
// `Rows::two`) takes 1 to 5 percent more instructions on blocks.
fn move_number_pair(part: &mut [u64], lines: Lines, done: usize)
    requires { (suc done < lines.degree) × (lines.degree < length part.old) }
    ensures { EachLine lines.degree (Passes (2 ^ 64) lines.offset lines.degree (suc (suc done)) done) part.old part.new }
{
    let degree = lines.degree;
    let first = arith::wrapping_sub(lines.offset, done as u64);
    add_numbers(
        part,
        degree,
        done,
        first,
        arith::wrapping_mul(first, arith::wrapping_sub(first, 1)),
    );
    let mut near = first.wrapping_add(first);
    let mut far = arith::wrapping_mul(first, first.wrapping_add(1));
    for place in done + 1..degree - 1 {
        add_numbers(part, degree, place, near, far);
        near = near.wrapping_add(2);
        far = far.wrapping_add(near);
    }
    add_next(part, degree, degree - 1, near);
}

// The number at place i gets `near` times the next number and `far` times the one after that added.
fn add_number(part: &mut [u64], i: usize, near: u64, far: u64)
    requires { i + 2 < length part.old }
    ensures { GetsAdded (2 ^ 64) i near far part.old part.new }
{
    part[i] = part[i].wrapping_add(arith::wrapping_mul(near, part[i + 1]).wrapping_add(
        arith::wrapping_mul(far, part[i + 2]),
    ));
}

// The passes `done` + 1 and `done` over a single line at once: there a loop for each number would not pay.
fn move_line_pair(part: &mut [u64], lines: Lines, done: usize)
    requires { (suc done < lines.degree) × (length part.old ≡ suc lines.degree) }
    ensures { Passes (2 ^ 64) lines.offset lines.degree (suc (suc done)) done part.old part.new }
{
    let last = part.len() - 2;
    let first = arith::wrapping_sub(lines.offset, done as u64);
    add_number(
        part,
        done,
        first,
        arith::wrapping_mul(first, arith::wrapping_sub(first, 1)),
    );
    let mut near = first.wrapping_add(first);
    let mut far = arith::wrapping_mul(first, first.wrapping_add(1));
    for i in done + 1..last {
        add_number(part, i, near, far);
        near = near.wrapping_add(2);
        far = far.wrapping_add(near);
    }
    part[last] = part[last].wrapping_add(arith::wrapping_mul(near, part[last + 1]));
}

impl Pairs for Lines {
    ghost degree = { λ x. x.degree };

    ghost fits = { λ x n. x.degree < n };

    ghost made = { λ x top done. EachLine x.degree (Passes (2 ^ 64) x.offset x.degree top done) };

    fn degree(self) -> usize {
        self.degree
    }

    // It has one number.
    fn alone(self, part: &mut [u64], done: usize) {
        add_next(
            part,
            self.degree,
            done,
            arith::wrapping_sub(self.offset, done as u64),
        );
    }

    // Over every line, by what is fastest.
    fn two(self, part: &mut [u64], done: usize) {
        if part.len() == self.degree + 1 {
            move_line_pair(part, self, done);
        } else {
            move_number_pair(part, self, done);
        }
    }

    ghost none = { λ x k t. each_same (λ u f r. r) };

    ghost follow = { λ x k l n t u v first second. each_then first second (λ a b c come passes f r. passes f (come f r)) };
}

// All passes over every line.
fn move_lines(part: &mut [u64], lines: Lines)
    requires { lines.degree < length part.old }
    ensures { EachLine lines.degree (Moves (2 ^ 64) lines.offset lines.degree) part.old part.new }
{
    make_passes(lines, part);
}

// All lines of a table, sixteen at a time, which the nearest cache holds at every degree.
fn move_parts(table: &mut [u64], lines: Lines)
    requires { (lines.degree < 256) × (lines.degree < length table.old) × (length table.old % suc lines.degree ≡ 0) }
    ensures { table.new ≡ tabulate (length table.old) (blocked (moved_line (2 ^ 64) lines.offset) 1 lines.degree (at table.old)) }
{
    let most = (lines.degree + 1) * 16;
    let mut from = 0;
    // An index by hand, and a call of its own for the last part, which may be shorter: with one call for all, a table of one part takes up to 7 percent more
    // instructions.
    while most < table.len() - from {
        let end = from + most;
        move_lines(&mut table[from..end], lines);
        from = end;
    }
    let end = table.len();
    move_lines(&mut table[from..end], lines);
}

// Pass `done` over a single line: the factor goes up from number to number.
fn move_line(part: &mut [u64], lines: Lines, done: usize)
    requires { (done < lines.degree) × (length part.old ≡ suc lines.degree) }
    ensures { Passes (2 ^ 64) lines.offset lines.degree (suc done) done part.old part.new }
{
    let mut factor = arith::wrapping_sub(lines.offset, done as u64);
    for i in done..part.len() - 1 {
        part[i] = part[i].wrapping_add(arith::wrapping_mul(factor, part[i + 1]));
        factor = factor.wrapping_add(1);
    }
}

// A single long line, one pass after the other.
fn move_long(part: &mut [u64], lines: Lines)
    requires { length part.old ≡ suc lines.degree }
    ensures { part.new ≡ tabulate (length part.old) (lined (moved_line (2 ^ 64) lines.offset) 1 lines.degree (at part.old)) }
{
    for done in (0..lines.degree).rev() {
        move_line(part, lines, done);
    }
}

// The lines of a first variable, by what is fastest.
pub(crate) fn move_first(table: &mut [u64], lines: Lines)
    requires { (lines.degree < 256) × (lines.degree < length table.old) × (length table.old % suc lines.degree ≡ 0) }
    ensures { table.new ≡ tabulate (length table.old) (blocked (moved_line (2 ^ 64) lines.offset) 1 lines.degree (at table.old)) }
{
    if 19 < lines.degree && table.len() == lines.degree + 1 {
        move_long(table, lines);
        return;
    }
    move_parts(table, lines);
}
