// The weighted fit: its columns, its matrix, the system solved, the box of its answer, and the call. What it needs, from its settings alone, stands in the
// crate `room`.
#![tactic(auto)]

mod answer;
mod columns;
pub mod fit;
mod matrix;
mod systems;
