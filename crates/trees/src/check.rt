// Checks a row of nodes in reading order: a derivation tree, or the first fault that is met.
ghost use Rattle.std.specs.Prelude.{◌≡◌, ◌<◌, ◌≤◌, not, length, take, position};
ghost use Rattle.trees.specs.Checking.{all_reached, checking, subtree};
ghost use Rattle.grammar.specs.OfBook.{grammar_of};
ghost use Rattle.trees.specs.Outcomes.{outcome, reaching};

use crate::fitting;
use crate::node::Node;
use grammar::Book;
use refusal::Refusal;

#[cfg(test)]
mod tests;

const MOST_NODES: usize = 4096;

const MOST_LEVELS: u8 = 64;

// Whether the nodes are a derivation tree of the book's grammar; else the first fault in reading order.
pub fn check_tree(book: &Book, nodes: &[Node]) -> Result<(), Refusal>
    ensures { result ≡ checking (grammar_of book.now) nodes.now }
{
    if nodes.is_empty() || nodes.len() > MOST_NODES {
        return Err(Refusal::NodeCount);
    }
    let mut reached = [false; MOST_NODES];
    reached[0] = true;
    let mut row = Row { nodes, reached };
    row.check_subtree(book, 0, book.vocabulary.start, MOST_LEVELS)?;
    row.check_reached()
}

// A row of nodes, and which of them were reached; there is a place for each, in a fixed array, as a check has no heap.
#[derive(Drop)]
struct Row<'a> {
    nodes: &'a [Node],
    reached: [bool; MOST_NODES],
    ghost placed: { length nodes.now ≤ length reached },
}

impl Row<'_> {
    // Checks the subtree at node `n`, which should be of `symbol` and have at most `room` levels.
    fn check_subtree(&mut self, book: &Book, n: u16, symbol: u16, room: u8) -> Result<(), Refusal>
        requires { n < length self.old.nodes.now }
        ensures nodes { self.new.nodes ≡ self.old.nodes }
        ensures reached { outcome result self.new.reached
            ≡ subtree (grammar_of book.now) self.old.nodes.now room n symbol self.old.reached }
    {
        if room == 0 {
            return Err(Refusal::TooDeep { node: n });
        }
        // Named once: through the row its place would be read again at each step.
        let nodes = self.nodes;
        let node = nodes[n as usize];
        if node.symbol != symbol || !fitting::fits(book, symbol, node.production) {
            return Err(Refusal::BadNode { node: n });
        }
        // 0 ends a chain, as rows of nodes have it. Its holder and index stand in this loop alone.
        let mut holder = n;
        let mut index = node.first_child;
        let right = fitting::right_side(book, node.production);
        for expected in right {
            if index == 0 {
                return Err(Refusal::BadNode { node: n });
            }
            self.reach(holder, index)?;
            self.check_subtree(book, index, *expected, room - 1)?;
            holder = index;
            index = nodes[index as usize].next_brother;
        }
        if index == 0 {
            Ok(())
        } else {
            Err(Refusal::BadNode { node: n })
        }
    }

    // Reaches the child that an index of the holder names. Tables test and mark what they reach likewise, with a bound and a
    // refusal of their own; what is left is too little for a function of both.
    fn reach(&mut self, holder: u16, index: u16) -> Result<(), Refusal>
        ensures nodes { self.new.nodes ≡ self.old.nodes }
        ensures reached { outcome result self.new.reached ≡ reaching self.old.nodes.now holder index self.old.reached }
    {
        let child = index as usize;
        if child >= self.nodes.len() || self.reached[child] {
            return Err(Refusal::BadLink { node: holder });
        }
        self.reached[child] = true;
        Ok(())
    }

    // Whether every node was reached; else the first that was not is a fault. A match, as what is found is the error.
    fn check_reached(&self) -> Result<(), Refusal>
        ensures { result ≡ all_reached 0 (length self.now.nodes.now) self.now.reached }
    {
        match self.first_stray() {
            Some(n) => Err(Refusal::BadLink { node: n as u16 }),
            None => Ok(()),
        }
    }

    // The first node that was not reached.
    fn first_stray(&self) -> Option<usize>
        ensures { result ≡ position not (take (length self.now.nodes.now) self.now.reached) }
    {
        self.reached
            .iter()
            .take(self.nodes.len())
            .position(|reached| !reached)
    }
}
