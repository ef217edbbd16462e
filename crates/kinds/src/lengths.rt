// Lengths: whole numbers within a thousand million of 0.
ghost use Rattle.std.specs.Prelude.{◌≡◌};
ghost use Rattle.kinds.specs.Lengths.{length_admitted, length_operation, length_starts, length_steps, within, NamesLengthOperation};
ghost use Rattle.std.proofs.Common.{rules};

use super::ValueKind;
use refusal::{Refusal, Site, Unlisted};

pub struct Lengths;

// What a rule does with its arguments, under the number that a table gives it.
#[derive(Clone, Copy, PartialEq, Eq, Debug)]
pub enum Operation {
    Constant = 1,
    Add = 2,
    Greater = 3,
    Subtract = 4,
}

const LIMIT: i64 = 1_000_000_000;

impl TryFrom<u16> for Operation {
    type Error = Unlisted;

    ghost try_from_gives = { NamesLengthOperation };

    fn try_from(number: u16) -> Result<Operation, Unlisted> {
        match number {
            1 => Ok(Operation::Constant),
            2 => Ok(Operation::Add),
            3 => Ok(Operation::Greater),
            4 => Ok(Operation::Subtract),
            _ => Err(Unlisted(number)),
        }
    }
}

impl Operation {
    // Computed in the wider type, so that nothing wraps.
    fn combined(self, so_far: i32, argument: i32) -> Option<i32>
        ensures { result ≡ length_steps (length_operation self) so_far argument }
    {
        let a = i64::from(so_far);
        let b = i64::from(argument);
        match self {
            Operation::Constant => None,
            Operation::Add => bounded(a + b),
            Operation::Greater => bounded(a.max(b)),
            Operation::Subtract => bounded(a - b),
        }
    }
}

impl ValueKind for Lengths {
    type Value = i32;

    ghost admitted = { λ _. length_admitted };

    ghost starts = { λ _. length_starts };

    ghost steps = { λ _. length_steps };

    ghost unadmitted = { Prim.search rules };

    fn admits(&self, operation: u16, _constant: u16, count: usize) -> bool {
        match Operation::try_from(operation) {
            Ok(Operation::Constant) => count == 0,
            Ok(Operation::Add | Operation::Greater | Operation::Subtract) => count > 0,
            Err(_) => false,
        }
    }

    fn start(
        &self,
        site: Site,
        operation: u16,
        constant: u16,
        count: usize,
    ) -> Result<i32, Refusal> {
        self.admits(operation, constant, count)
            .then_some(i32::from(constant))
            .ok_or(Refusal::Undefined { site })
    }

    fn step(&self, site: Site, operation: u16, so_far: i32, argument: i32) -> Result<i32, Refusal> {
        Operation::try_from(operation)
            .ok()
            .and_then(|operation| operation.combined(so_far, argument))
            .ok_or(Refusal::Undefined { site })
    }
}

// A number as a length, where it is one.
fn bounded(number: i64) -> Option<i32>
    ensures { result ≡ within number }
{
    (-LIMIT <= number && number <= LIMIT).then(|| number as i32)
}
