// What one pass can compute. Sets of attributes are by places.
ghost use Rattle.std.specs.Prelude.{◌≡◌, ℕ, ◌<◌, ◌≤◌, true, false, not, ◌&&◌, length, MatchBool};
ghost use Rattle.bitset.specs.Sets.{has};
ghost use Rattle.plans.specs.declared.Direction.{Direction};
ghost use Rattle.grammar.specs.Arcs.{precedence, bar};
ghost use Rattle.numbering.specs.Places.{holds, marked, by};
ghost use Rattle.numbering.specs.Settled.{Settled, Swept};

use crate::columns::{Columns, columns_of};
use bitset::Places;
use grammar::Board;
use grammar::board::{PRECEDES, bar};
use plans::Direction;

// What precedes each attribute, and what is barred from it for passes to the left and to the right.
#[derive(Drop)]
pub(crate) struct Relations {
    predecessors: Columns,
    left_bars: Columns,
    right_bars: Columns,
}

impl Relations {
    pub(crate) fn of(arcs: &Board) -> Relations
        ensures predecessors { (p q : ℕ) → p < 64 → q < 64 → holds result.predecessors p q ≡ marked arcs.now precedence p q }
        ensures bars { (d : Direction) (p q : ℕ) → p < 64 → q < 64 → holds (by d result.left_bars result.right_bars) p q ≡ marked arcs.now (bar d) p q }
    {
        Relations {
            predecessors: columns_of(arcs, PRECEDES),
            left_bars: columns_of(arcs, bar(Direction::Left)),
            right_bars: columns_of(arcs, bar(Direction::Right)),
        }
    }

    // The attributes that a pass in the direction can compute, of those that wait for a number.
    pub(crate) fn computed_in(&self, direction: Direction, waiting: Places) -> Places
        ensures { Settled (holds self.now.predecessors) (holds (by direction self.now.left_bars self.now.right_bars)) (has waiting) (has result) }
    {
        let bars = match direction {
            Direction::Left => &self.left_bars,
            Direction::Right => &self.right_bars,
        };
        let pass = Pass {
            predecessors: &self.predecessors,
            bars,
            waiting,
        };
        pass.settled()
    }
}

// A pass in one direction: the relations that count in it, and the attributes that wait for a number.
#[derive(Clone, Copy)]
struct Pass<'a> {
    predecessors: &'a Columns,
    bars: &'a Columns,
    waiting: Places,
    ghost whole: { (length predecessors.now ≡ 64) × (length bars.now ≡ 64) },
}

impl<'a> Pass<'a> {
    // Deletes candidates until none is blocked.
    fn settled(&self) -> Places
        ensures { Settled (holds self.now.predecessors.now) (holds self.now.bars.now) (has self.now.waiting) (has result) }
    {
        let mut candidates = self.waiting;
        loop {
            let rest = self.swept(candidates);
            if rest == candidates {
                return candidates;
            }
            candidates = rest;
        }
    }

    // The candidates less those that are blocked, each looked at once.
    fn swept(&self, candidates: Places) -> Places
        ensures fewer { result ≤ candidates }
        ensures swept { Swept (holds self.now.predecessors.now) (holds self.now.bars.now) (has self.now.waiting) (has candidates) (has result) (result ≡ candidates) }
    {
        let mut rest = candidates;
        for place in candidates {
            if self.blocks(place, rest) {
                rest = rest.without(place);
            }
        }
        rest
    }

    // Whether a predecessor is in the way: it waits, and is no candidate that stands behind no bar.
    fn blocks(&self, place: usize, candidates: Places) -> bool
        requires { place < 64 }
        ensures { MatchBool result ((p : ℕ) × (holds self.now.predecessors.now p place ≡ true) × (has self.now.waiting p ≡ true) × ((has candidates p && not (holds self.now.bars.now p place)) ≡ false)) ((p : ℕ) → holds self.now.predecessors.now p place ≡ true → has self.now.waiting p ≡ true → (has candidates p && not (holds self.now.bars.now p place)) ≡ true) }
    {
        let in_the_way = self.in_the_way(self.bars[place], candidates);
        self.predecessors[place].meets(in_the_way)
    }

    // What waits, except the candidates that stand behind no bar.
    fn in_the_way(&self, bars: Places, candidates: Places) -> Places
        ensures { (p : ℕ) → has result p ≡ (has self.now.waiting p && not (has candidates p && not (has bars p))) }
    {
        self.waiting - (candidates - bars)
    }
}
