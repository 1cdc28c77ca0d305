// Reading and printing of the bench program's layout: decimal numbers right-justified in 21 columns, without leading zeros, lines ended by byte 10.
// specs/Text.antt has the text of numbers and lines, specs/Layout.antt that of a file and what the bench program answers to it.
#![tactic(auto)]

pub mod answer;
pub mod number;
pub mod reader;
pub mod verdict;
