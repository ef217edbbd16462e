// Links to nodes: each node is reached once, and any other link is a fault of its holder.
use super::{MOST_NODES, Row};
use crate::node::Node;
use refusal::Refusal;

const TERMINAL: Node = Node {
    symbol: 1,
    production: 0,
    first_child: 0,
    next_brother: 0,
};

#[test]
fn a_node_is_reached_once(rt: HostRuntime) {
    let nodes = [TERMINAL; 3];
    let reached = [false; MOST_NODES];
    let mut row = Row {
        nodes: &nodes,
        reached,
    };
    assert_eq!(rt; row.reach(0, 1), Ok(()));
    assert_eq!(rt; row.reach(2, 1), Err(Refusal::BadLink { node: 2 }));
}

#[test]
fn a_link_past_the_nodes(rt: HostRuntime) {
    let nodes = [TERMINAL; 3];
    let reached = [false; MOST_NODES];
    let mut row = Row {
        nodes: &nodes,
        reached,
    };
    assert_eq!(rt; row.reach(1, 3), Err(Refusal::BadLink { node: 1 }));
}
