// Tables: records in chains, and what it means to read a grammar from them in order.
#![tactic(auto)]

pub mod record;
pub mod table;
mod theorems;

pub use record::{HEAD, Link, Record};
pub use table::{Reached, Table};
pub use theorems::{accepted_is_lawful, lawful_is_accepted, refusal_names_a_fault};
