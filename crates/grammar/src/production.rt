// Productions with their rules, laid out so that the rule of an occurrence is found at once.
ghost use Rattle.std.specs.Prelude.{map};
ghost use Rattle.grammar.specs.Rules.{Indexed, target_of};

mod lookup;

// Places for the occurrences of a production: 64 attributes at each of 9 positions.
pub const SLOTS: usize = 576;

// An attribute at a position of a production: 0 is the left side, the right side counts from 1.
#[derive(Clone, Copy, PartialEq, Eq, Debug)]
pub struct Occurrence {
    pub position: u16,
    pub attribute: u16,
}

// What sets an occurrence: an operation on a constant and on other occurrences. The operation is a number, since a
// book may be run over another value kind than it was loaded for.
#[derive(Drop)]
pub struct Rule {
    pub target: Occurrence,
    pub operation: u16,
    pub constant: u16,
    pub arguments: Vec<Occurrence>,
}

// Slot 64 * position + attribute - 1 has the number, from 1, of the rule for the occurrence, or 0: a look-up by
// number takes 0 for none already, so an Option in each slot would be no plainer.
#[derive(Drop)]
pub struct Production {
    pub left: u16,
    pub right: Vec<u16>,
    pub rules: Vec<Rule>,
    pub slots: [u16; SLOTS],
    ghost indexed: { Indexed slots (map target_of rules.items) },
}
