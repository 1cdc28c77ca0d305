// The calls that are replayed, by the number that begins a case. Each number is another call, and has an arm of its own in the match.
ghost use Rattle.replay.specs.Calls.{Names};

use answers::Refusal;

// The calls on a box.
#[derive(Clone, Copy, Debug, PartialEq, Eq)]
pub(crate) enum BoxCall {
    ToFactorialBasis,
    ToMonomialBasis,
    NormalizePolynomial,
    RecoverMultivarPoly,
    RecoverSingletonPowers,
}

// The solvers and the fit.
#[derive(Clone, Copy, Debug, PartialEq, Eq)]
pub(crate) enum System {
    Solve,
    SolveFixed,
    Fit,
}

// The kinds of a Stirling table. The type that `math_utils` has for them is private: its two tables are built by two public functions.
#[derive(Clone, Copy, Debug, PartialEq, Eq)]
pub(crate) enum Kind {
    First,
    Second,
}

// The leaves.
#[derive(Clone, Copy, Debug, PartialEq, Eq)]
pub(crate) enum Leaf {
    WrappingMul,
    Bitmask,
    ModAdd,
    ModSub,
    ModMul,
    ModNeg,
    TwosInFactorial,
    PrecisionBits,
    DegreeCap,
    OddPartFactorial,
    ModInverseOdd,
    Stirling(Kind),
}

#[derive(Clone, Copy, Debug, PartialEq, Eq)]
pub(crate) enum Call {
    Box(BoxCall),
    System(System),
    Leaf(Leaf),
}

impl TryFrom<u64> for Call {
    type Error = Refusal;

    ghost try_from_gives = { Names };

    fn try_from(op: u64) -> Result<Call, Refusal> {
        match op {
            1 => Ok(Call::Box(BoxCall::ToFactorialBasis)),
            2 => Ok(Call::Box(BoxCall::ToMonomialBasis)),
            3 => Ok(Call::Box(BoxCall::NormalizePolynomial)),
            4 => Ok(Call::Box(BoxCall::RecoverMultivarPoly)),
            5 => Ok(Call::Box(BoxCall::RecoverSingletonPowers)),
            6 => Ok(Call::System(System::Solve)),
            7 => Ok(Call::System(System::SolveFixed)),
            8 => Ok(Call::System(System::Fit)),
            21 => Ok(Call::Leaf(Leaf::WrappingMul)),
            22 => Ok(Call::Leaf(Leaf::Bitmask)),
            23 => Ok(Call::Leaf(Leaf::ModAdd)),
            24 => Ok(Call::Leaf(Leaf::ModSub)),
            25 => Ok(Call::Leaf(Leaf::ModMul)),
            26 => Ok(Call::Leaf(Leaf::ModNeg)),
            27 => Ok(Call::Leaf(Leaf::TwosInFactorial)),
            28 => Ok(Call::Leaf(Leaf::PrecisionBits)),
            29 => Ok(Call::Leaf(Leaf::DegreeCap)),
            30 => Ok(Call::Leaf(Leaf::OddPartFactorial)),
            31 => Ok(Call::Leaf(Leaf::ModInverseOdd)),
            32 => Ok(Call::Leaf(Leaf::Stirling(Kind::Second))),
            33 => Ok(Call::Leaf(Leaf::Stirling(Kind::First))),
            _ => Err(Refusal::OutOfRange),
        }
    }
}
