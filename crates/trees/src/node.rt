// The nodes of a derivation tree.

// The root is node 0. A terminal has production 0. A child or brother is named by its node's number, and is not
// boxed, as a row of nodes is what callers hand in; 0 ends both chains, and the root's brother is not read.
#[derive(Clone, Copy, PartialEq, Eq, Debug)]
pub struct Node {
    pub symbol: u16,
    pub production: u16,
    pub first_child: u16,
    pub next_brother: u16,
}
