// After the elimination: the tests that it leaves, and back-substitution, last column first.
ghost use Rattle.std.specs.Prelude.{◌≡◌, ℕ, ◌+◌, ◌*◌, ◌%◌, ◌^◌, ◌<◌, ◌≤◌, false, ◌||◌, length, ◌==◌, nat_lt, slice_index_or, is_ok, IfErr, unwrap_or, slice_set};
ghost use Rattle.std.specs.Result.{result_ok};
ghost use Rattle.meaning.specs.Tables.{at};
ghost use Rattle.meaning.specs.Sums.{sum};
ghost use Rattle.meaning.specs.Recovery.{every};
ghost use Rattle.meaning.specs.Factorials.{twos_of};
ghost use Rattle.meaning.specs.Elimination.{State};
ghost use Rattle.two_adic_solver.specs.ShownStates.{Shows};
ghost use Rattle.two_adic_solver.specs.Solved.{rest_of, Solved, Substituted};

use crate::pivot::Pivot;
use crate::system::System;
use answers::Refusal;

// Whether every column has a pivot row.
pub(crate) fn pivots_found(pivots: &[u64], rows: usize) -> bool
    ensures { result ≡ every (length pivots.now) (λ c. nat_lt (at pivots.now c) rows) }
{
    pivots.iter().all(|row| (*row as usize) < rows)
}

// Whether every row that is not used has the right side 0.
pub(crate) fn rights_vanish(right: &[u64], used: &[bool]) -> bool
    requires { length right.now ≤ length used.now }
    ensures { result ≡ every (length right.now) (λ i. slice_index_or used.now i false || at right.now i == 0) }
{
    right
        .iter()
        .zip(used)
        .all(|(side, used)| *used || *side == 0)
}

// The sum of the products of two lists, modulo 2^64. `poly` has such a sum too, of a line of coefficients: one function for both would need a place below the
// two crates, and save three lines.
fn dot(row: &[u64], x: &[u64]) -> u64
    requires { length row.now ≤ length x.now }
    ensures { result ≡ sum (length row.now) (λ k. at row.now k * at x.now k) % 2 ^ 64 }
{
    row.iter().zip(x).fold(0, |total: u64, (entry, value)| {
        total.wrapping_add(arith::wrapping_mul(*entry, *value))
    })
}

// What is left of the right side of a column's pivot row when the columns after it have the values in `answer`, modulo 2^w.
fn rest_of<S: System>(system: &S, answer: &[u64], column: usize, row: usize) -> u64
    requires { (length answer.now ≡ S.columns system.now) × (column < S.columns system.now) × (row < length (S.right system.now)) }
    ensures { result ≡ rest_of (S.width system.now) (S.columns system.now) (S.entries system.now) (S.right system.now) answer.now row column }
{
    let known = dot(system.behind(row, column), &answer[column + 1..]);
    arith::mod_sub(system.right()[row], known, system.width().bits)
}

// The value of a column, unless its pivot's power of two does not divide what is left of the right side. `answer` has its pivot row.
fn solve_column<S: System>(system: &S, answer: &[u64], column: usize) -> Result<u64, Refusal>
    requires sizes { (length answer.now ≡ S.columns system.now) × (column < S.columns system.now) × (at answer.now column < length (S.right system.now)) }
    requires pivot { twos_of (S.width system.now) (at (S.entries system.now) (at answer.now column * S.columns system.now + column)) < S.width system.now }
    ensures refusal { IfErr result (λ r. r ≡ Refusal.NoAnswer) }
    ensures solves { (s : State) → Shows (length (S.right system.now)) (S.columns system.now) s (S.entries system.now) (S.right system.now)
        → s.pivot column ≡ at answer.now column
        → Solved (S.width system.now) (S.columns system.now) s column answer.now
        (slice_set answer.now column (unwrap_or (result_ok result) 0)) (is_ok result) }
{
    let row = answer[column] as usize;
    let pivot = Pivot::new(system.entry(row, column), row, column, system.width());
    let rest = rest_of(system, answer, column, row);
    if !pivot.divides(rest) {
        return Err(Refusal::NoAnswer);
    }
    Ok(pivot.multiplier(rest))
}

// All columns, last column first: each reads its pivot row in `answer`, and puts its value there. It ends at the first that does not divide.
pub(crate) fn substitute<S: System>(system: &S, answer: &mut [u64]) -> Result<(), Refusal>
    requires sizes { length answer.old ≡ S.columns system.now }
    requires by_index { (j : ℕ) → j < S.columns system.now → (at answer.old j < length (S.right system.now))
        × (twos_of (S.width system.now) (at (S.entries system.now) (at answer.old j * S.columns system.now + j)) < S.width system.now) }
    ensures refusal { IfErr result (λ r. r ≡ Refusal.NoAnswer) }
    ensures substituted { (s : State) → Shows (length (S.right system.now)) (S.columns system.now) s (S.entries system.now) (S.right system.now)
        → ((j : ℕ) → j < S.columns system.now → at answer.old j ≡ s.pivot j)
        → Substituted (S.width system.now) (S.columns system.now) s answer.new (is_ok result) }
{
    for column in (0..system.columns()).rev() {
        answer[column] = solve_column(system, answer, column)?;
    }
    Ok(())
}
