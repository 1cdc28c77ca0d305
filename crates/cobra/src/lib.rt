// The static library's calls on numbers and tables. Every call returns the number of a refusal, or 0; a value goes to `value`, and is 0 beside a
// refusal. A slice crosses as a pointer and then a length. C has no `Result` and none of the library's structs: so refusals are numbers here, values go
// to lent places, and settings come one by one and are put together in each call.
#![tactic(auto)]

pub mod arithmetic;
pub mod boxes;
pub mod bytes;
pub mod fit;
pub mod keys;
pub mod leaves;
pub mod rooms;
pub mod systems;
