// Plans: in which direction each pass walks the derivation tree.
#![tactic(auto)]

ghost use Rattle.std.specs.Prelude.{◌≡◌, ◌≤◌, List, length, if◌then◌else◌, Ok, Err};
ghost use Rattle.plans.specs.Plans.{byte_direction, direction_at, opposite, plan_length};
ghost use Rattle.refusal.specs.declared.Refusal.TheVariants.{BadPlan};
ghost use Rattle.plans.specs.declared.Direction.{Direction};

use refusal::{Refusal, Unlisted};

pub mod alternating;
#[cfg(test)]
mod tests;
pub mod written;

// The most passes that a plan may have.
const LONGEST: usize = 128;

#[derive(Clone, Copy, PartialEq, Eq, Debug)]
pub enum Direction {
    Left,
    Right,
}

impl Direction {
    // A method, since `!` on a direction would say less.
    fn opposite(self) -> Direction
        ensures { result ≡ opposite self }
    {
        match self {
            Direction::Left => Direction::Right,
            Direction::Right => Direction::Left,
        }
    }
}

const LEFT: u8 = b'L';

const RIGHT: u8 = b'R';

impl TryFrom<u8> for Direction {
    type Error = Unlisted;

    ghost try_from_gives = { λ byte r. r ≡ byte_direction byte };

    fn try_from(byte: u8) -> Result<Direction, Unlisted> {
        match byte {
            LEFT => Ok(Direction::Left),
            RIGHT => Ok(Direction::Right),
            _ => Err(Unlisted(u16::from(byte))),
        }
    }
}

// The number of passes, if a plan may have so many.
fn passes_of(length: usize) -> Result<u8, Refusal>
    ensures { result ≡ (if plan_length length then Ok length else Err (BadPlan 0)) }
{
    if length == 0 || length > LONGEST {
        return Err(Refusal::BadPlan { place: 0 });
    }
    Ok(length as u8)
}

pub trait Plan {
    // The directions of the passes, first to last.
    ghost directions: { Self → List Direction };

    fn passes(&self) -> u8
        ensures { result ≡ length (directions self.now) };

    // The direction of a pass; the first is 1.
    fn direction(&self, pass: u8) -> Option<Direction>
        ensures { result ≡ direction_at (directions self.now) pass };

    ghost bounded: { (p : Self) → (1 ≤ length (directions p)) × (length (directions p) ≤ 128) };
}
