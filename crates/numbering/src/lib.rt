// Numbers the attributes of a book by the pass that computes them.
#![tactic(auto)]

mod columns;
mod directions;
mod numbers;
mod passes;
#[cfg(test)]
mod tests;
mod theorems;

pub use numbers::{Outcome, first_unnumbered, number};
pub use theorems::{deletion_is_least, deletion_numbers_grammars, least_is_unique};
