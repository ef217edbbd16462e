// Why a call is refused: the one fault type of all calls.
#![tactic(auto)]

ghost use Rattle.std.specs.Prelude.{◌≡◌, ◌++◌, Some, codes, decimal};
ghost use Rattle.refusal.specs.Numbers.{number, place};
ghost use Rattle.refusal.specs.Texts.{place_text, refusal_text};
ghost use Rattle.refusal.specs.declared.Refusal.TheVariants.{OutOfMemory};

use std::alloc::{AllocError, AllocFailed};
use std::error::Error;
use std::fmt;

#[cfg(test)]
mod tests;

// An attribute of a node, for which a value is wanted.
#[derive(Clone, Copy, PartialEq, Eq, Debug)]
pub struct Site {
    pub node: u16,
    pub attribute: u16,
}

// What a refusal points at: a number, or an attribute of a node.
#[derive(Clone, Copy, PartialEq, Eq, Debug)]
pub enum Place {
    At(usize),
    Instance(Site),
}

#[derive(Clone, Copy, PartialEq, Eq, Debug)]
pub enum Refusal {
    // 1: the table's bytes are not 1 to 4,096 records
    TableSize,
    // 2: an index of the holder names no record, or one already reached
    BadIndex { holder: u16 },
    // 3: the record is one more than its kind may have
    CountPassed { record: u16 },
    // 4: the record's kind is not listed, or may not stand there
    BadKind { record: u16 },
    // 5: the record names a symbol or an occurrence that it may not name
    NoSuch { record: u16 },
    // 6: a rule that may not be, or a production that lacks one
    BadRule { record: u16 },
    // 7: the argument is a defined occurrence
    DefinedArgument { record: u16 },
    // 8: the value kind does not admit the rule's operation
    NotAdmitted { rule: u16 },
    // 9: the plan's length is not 1 to 128, or the byte at the place is no direction
    BadPlan { place: u16 },
    // 10: the attribute has no number
    Unnumbered { attribute: u16 },
    // 11: the nodes are not 1 to 4,096
    NodeCount,
    // 12: a link of the node names no node or one already reached, or the node is never reached
    BadLink { node: u16 },
    // 13: the node's symbol, production or number of children is wrong
    BadNode { node: u16 },
    // 14: the node lies deeper than 64
    TooDeep { node: u16 },
    // 15: the run holds no tree
    NotOpened,
    // 16: there are fewer cells than 16 to a node
    TooFewCells,
    // 17: a pass is open
    PassOpen { pass: u16 },
    // 18: the slip is not that of an open pass of this run
    ForeignSlip { pass: u16 },
    // 19: every pass is finished
    AllFinished { passes: u16 },
    // 20: the walk of the pass has ended
    WalkEnded,
    // 21: the node is not there, lacks the attribute, or is no terminal where one is wanted
    NoInstance { node: u16 },
    // 22: the attribute's pass is not finished
    NotFinished { attribute: u16 },
    // 23: the value of the attribute is undefined
    Undefined { site: Site },
    // 24: the listing is longer than the buffer
    ListingTooLong { needed: usize },
    // want of memory, which has no number of its own
    OutOfMemory,
}

impl Refusal {
    // The number of the refusal; 0 for want of memory, which is outside the list and is printed like the rest. A method
    // and no `From`: its name says which number it is.
    pub fn number(self) -> u8
        ensures { result ≡ number self }
    {
        match self {
            Refusal::TableSize => 1,
            Refusal::BadIndex { .. } => 2,
            Refusal::CountPassed { .. } => 3,
            Refusal::BadKind { .. } => 4,
            Refusal::NoSuch { .. } => 5,
            Refusal::BadRule { .. } => 6,
            Refusal::DefinedArgument { .. } => 7,
            Refusal::NotAdmitted { .. } => 8,
            Refusal::BadPlan { .. } => 9,
            Refusal::Unnumbered { .. } => 10,
            Refusal::NodeCount => 11,
            Refusal::BadLink { .. } => 12,
            Refusal::BadNode { .. } => 13,
            Refusal::TooDeep { .. } => 14,
            Refusal::NotOpened => 15,
            Refusal::TooFewCells => 16,
            Refusal::PassOpen { .. } => 17,
            Refusal::ForeignSlip { .. } => 18,
            Refusal::AllFinished { .. } => 19,
            Refusal::WalkEnded => 20,
            Refusal::NoInstance { .. } => 21,
            Refusal::NotFinished { .. } => 22,
            Refusal::Undefined { .. } => 23,
            Refusal::ListingTooLong { .. } => 24,
            Refusal::OutOfMemory => 0,
        }
    }

    // The place that the refusal names, by name as well.
    pub fn place(self) -> Place
        ensures { result ≡ place self }
    {
        match self {
            Refusal::TableSize
            | Refusal::NodeCount
            | Refusal::NotOpened
            | Refusal::TooFewCells
            | Refusal::WalkEnded
            | Refusal::OutOfMemory => Place::At(0),
            Refusal::BadIndex { holder } => Place::At(holder as usize),
            Refusal::CountPassed { record }
            | Refusal::BadKind { record }
            | Refusal::NoSuch { record }
            | Refusal::BadRule { record }
            | Refusal::DefinedArgument { record } => Place::At(record as usize),
            Refusal::NotAdmitted { rule } => Place::At(rule as usize),
            Refusal::BadPlan { place } => Place::At(place as usize),
            Refusal::BadLink { node }
            | Refusal::BadNode { node }
            | Refusal::TooDeep { node }
            | Refusal::NoInstance { node } => Place::At(node as usize),
            Refusal::PassOpen { pass } | Refusal::ForeignSlip { pass } => Place::At(pass as usize),
            Refusal::AllFinished { passes } => Place::At(passes as usize),
            Refusal::Unnumbered { attribute } | Refusal::NotFinished { attribute } => {
                Place::At(attribute as usize)
            }
            Refusal::Undefined { site } => Place::Instance(site),
            Refusal::ListingTooLong { needed } => Place::At(needed),
        }
    }
}

impl fmt::Display for Place {
    ghost output = { λ p. Some (place_text p) };

    fn fmt<W: fmt::Write>(&self, f: &mut fmt::Formatter<W>) -> fmt::Result {
        match self {
            Place::At(place) => write!(f, "{place}"),
            Place::Instance(Site { node, attribute }) => {
                write!(f, "attribute {attribute} of node {node}")
            }
        }
    }
}

impl fmt::Display for Refusal {
    ghost output = { λ r. Some (refusal_text r) };

    fn fmt<W: fmt::Write>(&self, f: &mut fmt::Formatter<W>) -> fmt::Result {
        let number = self.number();
        let place = self.place();
        write!(f, "refused {number} at {place}")
    }
}

impl Error for Refusal {}

// A number, or a letter by its code, that names nothing of what it should.
#[derive(Clone, Copy, PartialEq, Eq, Debug)]
pub struct Unlisted(pub u16);

impl fmt::Display for Unlisted {
    ghost output = { λ e. Some (codes "nothing is listed under " ++ decimal e.0) };

    fn fmt<W: fmt::Write>(&self, f: &mut fmt::Formatter<W>) -> fmt::Result {
        write!(f, "nothing is listed under {}", self.0)
    }
}

impl Error for Unlisted {}

// Two impls, since std has two errors for want of memory and `?` takes either.
impl From<AllocError> for Refusal {
    ghost from_gives = { λ _ r. r ≡ OutOfMemory };

    fn from(_error: AllocError) -> Refusal {
        Refusal::OutOfMemory
    }
}

impl<T: Drop> From<AllocFailed<T>> for Refusal {
    ghost from_gives = { λ _ r. r ≡ OutOfMemory };

    fn from(_refused: AllocFailed<T>) -> Refusal {
        Refusal::OutOfMemory
    }
}
