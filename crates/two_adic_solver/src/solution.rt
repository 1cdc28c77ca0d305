// A system solved: eliminated, tested, and by back-substitution.
ghost use Rattle.std.specs.Prelude.{◌≡◌, ℕ, ◌<◌, ◌≤◌, false, length, slice_index_or, is_ok, IfErr};
ghost use Rattle.meaning.specs.Elimination.{State};
ghost use Rattle.two_adic_solver.specs.Shown.{Shown};
ghost use Rattle.two_adic_solver.specs.Solved.{Ended, Concluded, Finished};
ghost use Rattle.answers.specs.Said.{said_number};

use crate::system::System;
use crate::{elimination, substitution};
use answers::Refusal;

// The tests after the elimination, and back-substitution: `answer` has the pivot rows at first, and the values at last.
fn conclude<S: System>(system: &S, answer: &mut [u64]) -> Result<(), Refusal>
    requires sizes { length answer.old ≡ S.columns system.now }
    requires ended { Ended (S.width system.now) (length (S.right system.now)) (S.columns system.now)
        (S.entries system.now) (S.right system.now) (S.used system.now) answer.old }
    ensures refusal { IfErr result (λ r. r ≡ Refusal.NoAnswer) }
    ensures concluded { let rows = length (S.right system.now) in
        (s : State)
        → Shown (S.width system.now) rows (S.columns system.now) s (S.columns system.now)
        (S.entries system.now) (S.right system.now) (S.used system.now) answer.old
        → Concluded (S.width system.now) rows (S.columns system.now) s answer.new (is_ok result) }
{
    if !substitution::pivots_found(answer, system.right().len()) {
        return Err(Refusal::NoAnswer);
    }
    if !substitution::rights_vanish(system.right(), system.used()) {
        return Err(Refusal::NoAnswer);
    }
    substitution::substitute(system, answer)
}

// Solves a system, of which no row is marked before. The pivot rows stand in `answer` until
// back-substitution puts the values there; zeros stand there beside a refusal.
pub(crate) fn solve<S: System>(system: &mut S, answer: &mut [u64]) -> Result<(), Refusal>
    requires sizes { length answer.old ≡ S.columns system.old }
    requires unmarked { (i : ℕ) → i < length (S.right system.old) → slice_index_or (S.used system.old) i false ≡ false }
    ensures kept { S.same system.old system.new }
    ensures finished { Finished (S.width system.old) (S.columns system.old) (S.entries system.old) (S.right system.old)
        (S.entries system.new) (S.right system.new) answer.new (said_number result) }
{
    elimination::eliminate(system, answer);
    if let Err(refusal) = conclude(system, answer) {
        tables::clear(answer);
        return Err(refusal);
    }
    Ok(())
}
