// The directions of a plan's passes, kept in a book.
ghost use Rattle.std.specs.Prelude.{◌≡◌, ◌<◌, ◌↔◌, [], ◌∷◌, ◌++◌, length, if◌then◌else◌, IsTrue};

use plans::Direction;
use std::marker::Model;

// The most passes that a plan may have.
pub const MOST_PASSES: usize = 128;

// In clauses it is the list of the directions, first to last. Numbering may not fail for want of memory, so
// the memory is fixed. A plan's letters and a listing's page are kept alike, each in a type of its own: an array of
// a type parameter would owe at each call that it is small enough.
#[derive(Clone, Copy)]
pub struct Directions {
    passes: [Direction; MOST_PASSES],
    planned: usize,
}

impl Model for Directions {
    ghost use Rattle.std.specs.Prelude.{◌≡◌, ◌-◌, ◌≤◌, ◌++◌, List, length, take, drop, replicate};
    ghost use Rattle.plans.specs.declared.Direction.{Direction};
    ghost use Rattle.plans.specs.declared.Direction.TheVariants.{Left};
    ghost use Rattle.std.proofs.Common.{sym, ap, subst, ◌∙◌};
    ghost use Rattle.std.proofs.lemmas.List.{length-take-le, take-append-drop};

    ghost Value = { List Direction };

    ghost view = { λ d. take d.planned d.passes };

    // The unused places hold Left, so that the list gives all of them back: that makes it a value that may be copied.
    ghost invariant = { λ d. (length d.passes ≡ 128) × (d.planned ≤ 128) × (drop d.planned d.passes ≡ replicate (128 - d.planned) Left) };

    ghost inverse = { λ ds. record { passes = ds ++ replicate (128 - length ds) Left; planned = length ds } };

    ghost inverse_ok = { λ a h. let many = length-take-le a.planned a.passes (subst (λ n. a.planned ≤ n) (sym h.0) h.1) in let all = ap (λ m. take a.planned a.passes ++ replicate (128 - m) Left) many ∙ ap (λ ds. take a.planned a.passes ++ ds) (sym h.2) ∙ take-append-drop a.planned a.passes in λ i. record { passes = all i; planned = many i } };
}

impl Directions {
    pub fn new() -> Directions
        ensures { result ≡ [] }
    {
        Directions {
            passes: [Direction::Left; MOST_PASSES],
            planned: 0,
        }
    }

    // Adds the direction of one pass more, if a plan may have it, and says whether, as std's sets do.
    pub fn push(&mut self, direction: Direction) -> bool
        ensures room { IsTrue result ↔ (length self.old < 128) }
        ensures pushed { self.new ≡ (if result then self.old ++ direction ∷ [] else self.old) }
    {
        if self.planned == MOST_PASSES {
            return false;
        }
        self.passes[self.planned] = direction;
        self.planned += 1;
        true
    }

    pub fn as_slice(&self) -> &[Direction]
        ensures { result.now ≡ self.now }
    {
        &self.passes[..self.planned]
    }
}
