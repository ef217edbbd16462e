// Plans written in letters, one for each pass.
ghost use Rattle.std.specs.Prelude.{◌≡◌, ◌≤◌, false, length, take, is_some};
ghost use Rattle.std.specs.Result.{result_map_both};
ghost use Rattle.plans.specs.Plans.{first_wrong, written, written_plan};
ghost use Rattle.std.proofs.Common.{rules, arith};

use super::{Direction, LONGEST, Plan, passes_of};
use refusal::Refusal;

// The first letters are the plan; the rest is unused. An array with a count, so that a plan is copied without a heap.
#[derive(Clone, Copy)]
pub struct Written {
    letters: [u8; LONGEST],
    count: u8,
    ghost bounds: { (1 ≤ count) × (count ≤ 128) },
    ghost counted: { length (written (take count letters)) ≡ count },
    ghost lettered: { is_some (first_wrong (take count letters)) ≡ false },
}

impl Written {
    // Copies the letters; a wrong length is refused before any byte is looked at.
    pub fn new(bytes: &[u8]) -> Result<Written, Refusal>
        ensures { result_map_both (λ p. written (take p.count p.letters)) (λ e. e) result ≡ written_plan bytes.now }
    {
        let count = passes_of(bytes.len())?;
        if let Some(place) = first_wrong(bytes) {
            return Err(Refusal::BadPlan {
                place: place as u16,
            });
        }
        Ok(Written {
            letters: copied(bytes),
            count,
        })
    }
}

// The place of the first byte that is no letter.
fn first_wrong(bytes: &[u8]) -> Option<usize>
    ensures { result ≡ first_wrong bytes.now }
{
    bytes
        .iter()
        .position(|byte| Direction::try_from(*byte).is_err())
}

// Letters with unused bytes behind them.
fn copied(bytes: &[u8]) -> [u8; LONGEST]
    requires { length bytes.now ≤ 128 }
    ensures { take (length bytes.now) result ≡ bytes.now }
{
    let mut letters = [0; LONGEST];
    letters[..bytes.len()].copy_from_slice(bytes);
    letters
}

impl Plan for Written {
    ghost directions = { λ p. written (take p.count p.letters) };

    ghost bounded = { Prim.search rules };

    fn passes(&self) -> u8 {
        self.count
    }

    fn direction(&self, pass: u8) -> Option<Direction> {
        if pass > self.passes() {
            return None;
        }
        let place = usize::from(pass).checked_sub(1)?;
        Direction::try_from(self.letters[place]).ok()
    }
}
