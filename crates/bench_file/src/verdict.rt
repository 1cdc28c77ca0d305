// What the answer says, and the settings as the reader hands them over.
ghost use Rattle.std.specs.Prelude.{◌≡◌, ℕ, ◌==◌};
ghost use Rattle.answers.specs.Said.{code, said_number};
ghost use Rattle.bench_file.specs.Verdict.{verdict, narrowed, lowered};

use crate::reader::IllFormed;
use answers::Refusal;

// What says whether anything is wrong, with the number of it: 0 where nothing is.
pub trait Numbered: Copy {
    // the number that it says
    ghost number: { Self → ℕ };

    // What a refusal says.
    fn refused(refusal: Refusal) -> Self
        ensures { number result ≡ code refusal };

    // Whether nothing is wrong.
    fn passes(self) -> bool
        ensures { result ≡ (number self == 0) };
}

// What a call says.
impl Numbered for Result<(), Refusal> {
    ghost number = { λ outcome. said_number outcome };

    fn refused(refusal: Refusal) -> Self {
        Err(refusal)
    }

    fn passes(self) -> bool {
        self.is_ok()
    }
}

// Any number, also one that no refusal has.
impl Numbered for u32 {
    ghost number = { λ n. n };

    fn refused(refusal: Refusal) -> Self {
        u32::from(refusal)
    }

    fn passes(self) -> bool {
        self == 0
    }
}

// What the answer says. `settings` says whether anything is wrong with the settings; `exact` says that there are as many values as the box has cells;
// `recovered` is what recovery says. An input whose first two lines are ill-formed is 12; then come the settings, then 12 for ill-formed values, then 9 for
// a wrong count. `exact` is a bool, since the definition `verdict` takes this test as a Bool.
pub fn verdict_of<N: Numbered>(
    reading: Result<(), IllFormed>,
    settings: N,
    exact: bool,
    recovered: N,
) -> N
    ensures { N.number result ≡ verdict reading (N.number settings) exact (N.number recovered) }
{
    if let Err(IllFormed::Head) = reading {
        return N::refused(Refusal::IllFormed);
    }
    if !settings.passes() {
        return settings;
    }
    if reading.is_err() {
        return N::refused(Refusal::IllFormed);
    }
    if !exact {
        return N::refused(Refusal::WrongLength);
    }
    recovered
}

// A number of 64 bits as one of 32: the largest where it is larger. A width or a total so large is refused either way. Below the same for 8 bits: one function
// for both types would need a trait that says which numbers `try_from` takes and which is the largest, and be no plainer.
pub fn narrow(value: u64) -> u32
    ensures { result ≡ narrowed value }
{
    u32::try_from(value).unwrap_or(u32::MAX)
}

// A number of 64 bits as one of 8: the largest where it is larger. A degree or a support count that was read is never larger.
pub fn lower(value: u64) -> u8
    ensures { result ≡ lowered value }
{
    u8::try_from(value).unwrap_or(u8::MAX)
}
