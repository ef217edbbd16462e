// The directions of a plan, written out.
ghost use Rattle.std.specs.Prelude.{◌≡◌};

use grammar::Directions;
use plans::Plan;

// The number of the first pass.
pub(crate) const FIRST_PASS: u8 = 1;

// The direction of each pass of the plan, which is asked pass by pass: a chain would have to say again, on its
// closure, what the plan answers.
pub(crate) fn directions_of<P: Plan>(plan: &P) -> Directions
    ensures { result ≡ P.Plan.directions plan.now }
{
    let mut directions = Directions::new();
    for pass in FIRST_PASS..=plan.passes() {
        if let Some(direction) = plan.direction(pass) {
            directions.push(direction);
        }
    }
    directions
}
