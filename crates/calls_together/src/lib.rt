// What holds of several calls together: functions that make the calls, and say in their contracts what follows for their answers. Nothing uses them; the gate
// proves them, so that each statement is one about the compiled calls. What the calls said is returned as a struct, since a tuple has no names by which a clause
// could say which call it means. The tables are parameters, lent as the calls take them, since a struct of them would only be taken apart again.
#![tactic(auto)]

mod bytes;
mod comparisons;
mod forms;
mod grids;
mod moved;
mod rooms;

use answers::Refusal;

// What two calls said, and what three did.
#[derive(Clone, Copy, Debug, PartialEq, Eq)]
struct TwoOutcomes {
    first: Result<(), Refusal>,
    second: Result<(), Refusal>,
}

#[derive(Clone, Copy, Debug, PartialEq, Eq)]
struct ThreeOutcomes {
    first: Result<(), Refusal>,
    second: Result<(), Refusal>,
    third: Result<(), Refusal>,
}
