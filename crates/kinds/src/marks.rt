// Marks: small numbers, of which 0 says that there is no mark; a mark is a byte by its meaning, and no Option.
ghost use Rattle.std.specs.Prelude.{◌≡◌};
ghost use Rattle.kinds.specs.Marks.{agreed, mark_admitted, mark_operation, mark_starts, mark_steps, NamesMarkOperation};
ghost use Rattle.std.proofs.Common.{rules};

use super::ValueKind;
use refusal::{Refusal, Site, Unlisted};

pub struct Marks;

// What a rule does with its arguments, under the number that a table gives it.
#[derive(Clone, Copy, PartialEq, Eq, Debug)]
pub enum Operation {
    Constant = 1,
    Latest = 2,
    Agreement = 3,
}

const GREATEST: u16 = 255;

impl TryFrom<u16> for Operation {
    type Error = Unlisted;

    ghost try_from_gives = { NamesMarkOperation };

    fn try_from(number: u16) -> Result<Operation, Unlisted> {
        match number {
            1 => Ok(Operation::Constant),
            2 => Ok(Operation::Latest),
            3 => Ok(Operation::Agreement),
            _ => Err(Unlisted(number)),
        }
    }
}

impl Operation {
    // The value so far and one argument, as the meaning takes them.
    fn combined(self, so_far: u8, argument: u8) -> Option<u8>
        ensures { result ≡ mark_steps (mark_operation self) so_far argument }
    {
        match self {
            Operation::Constant => None,
            Operation::Latest if argument == 0 => Some(so_far),
            Operation::Latest => Some(argument),
            Operation::Agreement => agreement(so_far, argument),
        }
    }
}

impl ValueKind for Marks {
    type Value = u8;

    ghost admitted = { λ _. mark_admitted };

    ghost starts = { λ _. mark_starts };

    ghost steps = { λ _. mark_steps };

    ghost unadmitted = { Prim.search rules };

    fn admits(&self, operation: u16, constant: u16, count: usize) -> bool {
        constant <= GREATEST
            && match Operation::try_from(operation) {
                Ok(Operation::Constant) => count == 0,
                Ok(Operation::Latest | Operation::Agreement) => count > 0,
                Err(_) => false,
            }
    }

    fn start(
        &self,
        site: Site,
        operation: u16,
        constant: u16,
        count: usize,
    ) -> Result<u8, Refusal> {
        self.admits(operation, constant, count)
            .then(|| constant as u8)
            .ok_or(Refusal::Undefined { site })
    }

    fn step(&self, site: Site, operation: u16, so_far: u8, argument: u8) -> Result<u8, Refusal> {
        Operation::try_from(operation)
            .ok()
            .and_then(|operation| operation.combined(so_far, argument))
            .ok_or(Refusal::Undefined { site })
    }
}

// The one mark of two, where they do not contradict each other.
fn agreement(so_far: u8, argument: u8) -> Option<u8>
    ensures { result ≡ agreed so_far argument }
{
    if so_far == 0 {
        Some(argument)
    } else if argument == 0 || argument == so_far {
        Some(so_far)
    } else {
        None
    }
}
