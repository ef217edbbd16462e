// Derivation trees: rows of nodes, and the check that one is a tree of a book's grammar.
#![tactic(auto)]

mod check;
mod fitting;
mod laws;
pub mod node;
mod theorems;

pub use check::check_tree;
pub use laws::{
    cells_differ, child_has_its_symbol, children_have_the_symbols, every_node_has_a_parent,
    nodes_have_their_children, parent_is_unique,
};
pub use node::Node;
pub use theorems::{
    accepted_holds_a_tree, refusal_names_a_fault, tree_is_unique, trees_are_accepted,
};
