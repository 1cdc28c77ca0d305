// Linear systems modulo 2^w by elimination: the solver on lent tables, and the four by four solver on arrays by value.
#![tactic(auto)]

mod elimination;
pub mod fixed;
mod pivot;
mod rooms;
mod solution;
pub mod solver;
mod square;
mod substitution;
mod system;
mod table;
mod width;
