// The arc board: which attribute precedes which, and where bars stand.
ghost use Rattle.std.specs.Prelude.{◌≡◌};
ghost use Rattle.grammar.specs.Arcs.{bar, label};

use plans::Direction;

// A place for each pair of attributes; 64 * (a - 1) + b - 1 belongs to a before b.
pub const BOARD_PLACES: usize = 4096;

// The labels of arcs, each a sum of the bit of precedence and of bars; 0 is blank. Bits and no enum, since two
// attributes may be in several of these relations at once; a fixed array, as there are always so many places.
pub type Board = [u8; BOARD_PLACES];

// A bit of the label, as are the bars.
pub const PRECEDES: u8 = 1;

// The bit of a bar for passes in the direction.
pub fn bar(direction: Direction) -> u8
    ensures { result ≡ bar direction }
{
    match direction {
        Direction::Left => 2,
        Direction::Right => 4,
    }
}

// The label of an arc from an attribute at position j to one at position k of a production.
pub fn arc_label(j: u16, k: u16) -> u8
    ensures { result ≡ label j k }
{
    let left = if 1 <= k && k <= j {
        bar(Direction::Left)
    } else {
        0
    };
    let right = if 1 <= j && j <= k {
        bar(Direction::Right)
    } else {
        0
    };
    PRECEDES + left + right
}
