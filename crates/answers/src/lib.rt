// Why calls are turned down, and the numbers of their answers. An answer is a `Result`: of `()` where a call only fills lent tables, of a number, or of yes or
// no. specs/Said.antt gives the number and the value of each.
#![tactic(auto)]

ghost use Rattle.std.specs.Prelude.{◌≡◌};
ghost use Rattle.meaning.specs.Replies.{told};
ghost use Rattle.answers.specs.Said.{code, said_number, said, said_truth};

use std::error::Error;
use std::fmt;

// Why a call is turned down.
#[derive(Clone, Copy, Debug, PartialEq, Eq, Hash)]
pub enum Refusal {
    // The support is empty: 1.
    EmptySupport,
    // More than 20 variables in all: 2.
    TooManyVariables,
    // The width is not 2 to 64: 3.
    WidthOutOfRange,
    // The highest degree is 0 where it must not be: 4.
    DegreeZero,
    // A support index is not below the number of variables: 5.
    SupportIndex,
    // A difference is not divisible: no polynomial within the box agrees with the values: 6.
    NotDivisible,
    // A support index stands twice: 7.
    RepeatedIndex,
    // A box, a matrix or its columns are above the limit: 8.
    TooLarge,
    // A lent table does not have the exact length, or there is no column: 9.
    WrongLength,
    // The elimination finds no answer: 10.
    NoAnswer,
    // An argument of a leaf is outside its range: 11.
    OutOfRange,
    // The bench file is ill-formed: 12.
    IllFormed,
}

impl From<Refusal> for u32 {
    ghost from_gives = { λ refusal number. number ≡ code refusal };

    // The number of a refusal.
    fn from(refusal: Refusal) -> u32 {
        match refusal {
            Refusal::EmptySupport => 1,
            Refusal::TooManyVariables => 2,
            Refusal::WidthOutOfRange => 3,
            Refusal::DegreeZero => 4,
            Refusal::SupportIndex => 5,
            Refusal::NotDivisible => 6,
            Refusal::RepeatedIndex => 7,
            Refusal::TooLarge => 8,
            Refusal::WrongLength => 9,
            Refusal::NoAnswer => 10,
            Refusal::OutOfRange => 11,
            Refusal::IllFormed => 12,
        }
    }
}

impl fmt::Display for Refusal {
    fn fmt<W: fmt::Write>(&self, f: &mut fmt::Formatter<W>) -> fmt::Result {
        f.write_str(match self {
            Refusal::EmptySupport => "the support is empty",
            Refusal::TooManyVariables => "there are more than 20 variables",
            Refusal::WidthOutOfRange => "the width is not 2 to 64",
            Refusal::DegreeZero => "the highest degree is 0",
            Refusal::SupportIndex => "a support index is not below the number of variables",
            Refusal::NotDivisible => "no polynomial has the values",
            Refusal::RepeatedIndex => "a support index stands twice",
            Refusal::TooLarge => "a box, a matrix or its columns are above the limit",
            Refusal::WrongLength => "a table does not have its exact length",
            Refusal::NoAnswer => "the elimination finds no answer",
            Refusal::OutOfRange => "an argument is outside its range",
            Refusal::IllFormed => "the file is ill-formed",
        })
    }
}

impl Error for Refusal {}

// The number that an outcome says: 0 where it is accepted.
pub fn outcome_code(outcome: Result<(), Refusal>) -> u32
    ensures { result ≡ said_number outcome }
{
    match outcome {
        Ok(()) => 0,
        Err(refusal) => u32::from(refusal),
    }
}

// The number that an answer says, with its value, or 0, stored at `value`.
pub fn deliver(answer: Result<u64, Refusal>, value: &mut u64) -> u32
    ensures { told result value.new ≡ said answer }
{
    *value = answer.unwrap_or(0);
    outcome_code(answer.map(|_| ()))
}

// The number that a yes or no says, with 1 or 0, or 0 beside a refusal, stored at `value`.
pub fn deliver_truth(answer: Result<bool, Refusal>, value: &mut u64) -> u32
    ensures { told result value.new ≡ said_truth answer }
{
    deliver(answer.map(u64::from), value)
}
