// The arc board by columns: for each attribute the set of those that are in a relation to it.
ghost use Rattle.std.specs.Prelude.{◌≡◌, ℕ, ◌<◌, ◌&&◌, nat_lt};
ghost use Rattle.bitset.specs.Sets.{has};
ghost use Rattle.numbering.specs.Places.{marked, holds};

use bitset::Places;
use grammar::Board;
use grammar::vocabulary::MOST_ATTRIBUTES;

// For each attribute a set of attributes, all by places. A fixed array, since numbering may not fail for memory.
pub(crate) type Columns = [Places; MOST_ATTRIBUTES];

// The sets of one bit of the labels.
pub(crate) fn columns_of(arcs: &Board, bit: u8) -> Columns
    ensures { (p q : ℕ) → p < 64 → q < 64 → holds result p q ≡ marked arcs.now bit p q }
{
    let mut sets = [Places::default(); MOST_ATTRIBUTES];
    // No `from_fn`: its closure would have to say again what `column` requires and ensures.
    for (place, set) in sets.iter_mut().enumerate() {
        *set = column(arcs, bit, place);
    }
    sets
}

fn column(arcs: &Board, bit: u8, place: usize) -> Places
    requires { place < 64 }
    ensures { (p : ℕ) → has result p ≡ (nat_lt p 64 && marked arcs.now bit p place) }
{
    let mut set = Places::default();
    for (other, row) in arcs.chunks_exact(MOST_ATTRIBUTES).enumerate() {
        if row[place] & bit != 0 {
            set = set.with(other);
        }
    }
    set
}
