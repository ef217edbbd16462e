// Sets of at most 64 places, each set one word.
#![tactic(auto)]

ghost use Rattle.std.specs.Prelude.{◌≡◌, ℕ, ◌^◌, ◌<◌, ◌≤◌, true, false, not, ◌&&◌, ◌||◌, MatchBool, MatchOption, ◌==◌, nat_lt};
ghost use Rattle.std.specs.Iterator.{at_most};
ghost use Rattle.bitset.specs.Sets.{has, many, Lowest, TakesLowest};

use std::marker::Model;
use std::ops::Sub;

#[cfg(test)]
mod tests;

// How many places a word has.
const PLACES: usize = 64;

// A set of places. In clauses it is the number whose binary digits are the places.
#[derive(Clone, Copy, PartialEq, Eq, Debug)]
pub struct Places {
    word: u64,
}

impl Model for Places {
    ghost Value = { ℕ };

    ghost view = { λ s. s.word };

    ghost invariant = { λ s. s.word < 2 ^ 64 };

    ghost inverse = { λ n. record { word = n } };
}

impl Places {
    #[tactic(auto, using(crate::proofs::Digits::has_digit, crate::proofs::Digits::has_past))]
    pub fn contains(self, place: usize) -> bool
        ensures { result ≡ has self place }
    {
        place < PLACES && self.word >> place & 1 == 1
    }

    // The set and one place more, if a word has that place.
    pub fn with(self, place: usize) -> Places
        ensures { (p : ℕ) → has result p ≡ (has self p || (nat_lt p 64 && p == place)) }
    {
        if place >= PLACES {
            return self;
        }
        Places {
            word: self.word | 1 << place,
        }
    }

    // The set less one place.
    #[tactic(auto, using(crate::proofs::Digits::has_less, crate::proofs::Digits::without_past))]
    pub fn without(self, place: usize) -> Places
        ensures rest { (p : ℕ) → has result p ≡ (has self p && not (p == place)) }
        ensures fewer { result ≤ self }
    {
        if place < PLACES {
            Places {
                word: self.word & !(1 << place),
            }
        } else {
            self
        }
    }

    // Whether the sets share a place.
    #[tactic(auto, using(crate::proofs::Digits::common))]
    pub fn meets(self, other: Places) -> bool
        ensures { MatchBool result ((p : ℕ) × (p < 64) × (has self p ≡ true) × (has other p ≡ true)) ((p : ℕ) → has self p ≡ true → has other p ≡ false) }
    {
        self.word & other.word != 0
    }

    // How many places the set has.
    #[tactic(auto, using(crate::proofs::Digits::ones_many))]
    pub fn len(self) -> u32
        ensures { result ≡ many (has self) 64 }
    {
        self.word.count_ones()
    }

    #[tactic(auto, using(crate::proofs::Digits::none_or_some))]
    pub fn is_empty(self) -> bool
        ensures { MatchBool result (self ≡ 0) ((p : ℕ) × (has self p ≡ true)) }
    {
        self.word == 0
    }

    // The lowest place of the set.
    pub fn first(self) -> Option<usize>
        ensures { MatchOption result (self ≡ 0) (λ t. Lowest self 64 t) }
    {
        if self.is_empty() {
            None
        } else {
            Some(self.word.trailing_zeros() as usize)
        }
    }
}

// The places of the one set that the other has not.
impl Sub for Places {
    type Output = Places;

    ghost sub_gives = { λ x y r. (p : ℕ) → has r p ≡ (has x p && not (has y p)) };

    #[tactic(auto, using(crate::proofs::Digits::has_minus))]
    fn sub(self, other: Places) -> Places {
        Places {
            word: self.word & !other.word,
        }
    }
}

// The empty set.
impl Default for Places {
    ghost is_default = { λ s. s ≡ 0 };

    fn default() -> Places {
        Places { word: 0 }
    }
}

impl From<u64> for Places {
    ghost from_gives = { λ word s. s ≡ word };

    fn from(word: u64) -> Places {
        Places { word }
    }
}

impl From<Places> for u64 {
    ghost from_gives = { λ s word. word ≡ s };

    fn from(set: Places) -> u64 {
        set.word
    }
}

// The places of a set, from the lowest on.
#[derive(Drop)]
pub struct Members {
    left: Places,
}

impl IntoIterator for Places {
    type Item = usize;

    type IntoIter = Members;

    ghost into_iter_gives = { λ set members. members.left ≡ set };

    fn into_iter(self) -> Members {
        Members { left: self }
    }
}

impl Iterator for Members {
    type Item = usize;

    ghost next_gives = { λ members place rest. TakesLowest members.left place rest.left };

    ghost remaining = { λ members. at_most members.left };

    fn next(&mut self) -> Option<usize> {
        let place = self.left.first()?;
        self.left = self.left.without(place);
        Some(place)
    }
}
