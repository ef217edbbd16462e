// Plans whose passes go left and right in turn.
ghost use Rattle.std.specs.Prelude.{◌≡◌, ◌≤◌, length as number};
ghost use Rattle.std.specs.Result.{result_map_both};
ghost use Rattle.plans.specs.Plans.{alternating, alternating_plan, in_turn};
ghost use Rattle.std.proofs.Common.{rules, arith};

use super::{Direction, Plan, passes_of};
use refusal::Refusal;

#[derive(Clone, Copy)]
pub struct Alternating {
    first: Direction,
    count: u8,
    ghost bounds: { (1 ≤ count) × (count ≤ 128) },
    ghost counted: { number (alternating first count) ≡ count },
}

impl Alternating {
    pub fn new(first: Direction, length: u16) -> Result<Alternating, Refusal>
        ensures { result_map_both (λ p. alternating p.first p.count) (λ e. e) result ≡ alternating_plan first length }
    {
        let count = passes_of(usize::from(length))?;
        Ok(Alternating { first, count })
    }
}

impl Plan for Alternating {
    ghost directions = { λ p. alternating p.first p.count };

    ghost bounded = { Prim.search rules };

    fn passes(&self) -> u8 {
        self.count
    }

    fn direction(&self, pass: u8) -> Option<Direction> {
        (1 <= pass && pass <= self.passes()).then(|| turn(self.first, pass))
    }
}

// Odd passes go in the first direction.
fn turn(first: Direction, pass: u8) -> Direction
    ensures { result ≡ in_turn first pass }
{
    if pass % 2 == 1 {
        first
    } else {
        first.opposite()
    }
}
