// Loads a book from a table of bytes.
#![tactic(auto)]

mod loader;
mod occurring;
mod productions;
mod rules;
mod sides;
mod symbols;

pub use loader::load;
