// Reading and writing lines: tokens, numbers, keywords, the reader of a line, and the line being written.
#![tactic(auto)]

mod fronts;
pub mod keyword;
pub mod line;
pub mod lost;
mod numbers;
pub mod reader;
pub mod tokens;
