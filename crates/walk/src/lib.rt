// The theory of evaluation in passes: walks and paths, straight-line programs, instances and their rules, and what passes come to.
#![tactic(auto)]

pub mod entry;
mod evaluation;
mod instances;
mod passes;
mod paths;
mod programs;
mod values;
mod walks;

pub use entry::Entry;
pub use evaluation::{
    evaluation_is_unique, evaluation_stays, first_taking_is_least, pass_evaluates,
    pass_sets_its_number_alone, passes_compose, rewriting_keeps_the_earlier,
};
pub use instances::{
    arguments_are_instances, children_stand_at_their_positions, each_instance_has_one_rule,
    inherited_are_set_at_the_parent, positions_have_children, rules_set_instances,
    synthesized_are_set_at_the_node,
};
pub use passes::{arguments_are_ready, pass_carries_out_its_rules, pass_is_ordered};
pub use paths::{
    moves_follow_the_walk, moves_perform_the_walk, path_is_within_the_depth, path_tells_the_moves,
};
pub use programs::{
    beginnings_likewise, execution_fulfils, execution_stops_at_the_undefined, fulfilment_is_unique,
};
pub use values::unadmitted_rules_have_no_value;
pub use walks::{
    brothers_are_visited_in_order, inner_nodes_have_inner_symbols, walk_enters_each_once,
    walk_goes_in_turn, walk_has_its_steps, walk_leaves_each_once, walk_length, walk_nests,
};
