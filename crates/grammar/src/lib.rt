// Attribute grammars, and the book that holds one.
#![tactic(auto)]

pub mod board;
pub mod book;
pub mod directions;
mod numbered;
mod numbers;
pub mod production;
#[cfg(test)]
mod tests;
mod theorems;
pub mod vocabulary;

pub use board::{Board, arc_label, bar};
pub use book::Book;
pub use directions::Directions;
pub use numbers::{unnumbered, wanting};
pub use production::{Occurrence, Production, Rule};
pub use theorems::{
    given_precedes_nothing, labels_stand_for_relations, same_position_is_barred_both_ways,
};
pub use vocabulary::{Attribute, AttributeKind, Symbol, SymbolKind, Vocabulary};
