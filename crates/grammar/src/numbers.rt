// The numbers of attributes before any pass is planned.
ghost use Rattle.std.specs.Prelude.{◌≡◌, ℕ, ◌≤◌, ◌&&◌, length, take, nat_lt};
ghost use Rattle.bitset.specs.Sets.{has};
ghost use Rattle.grammar.specs.Books.{unnumbered, wanting_at};

use crate::vocabulary::{Attribute, MOST_ATTRIBUTES};
use bitset::Places;

// The number of a given attribute, whose values are there before the first pass: 0 in the callers' bytes.
const BEFORE_PASSES: u8 = 0;

// The number that stands for none: callers have a byte for each attribute, and no Option.
const NONE: u8 = 255;

// Attributes past the most that a grammar may have are not looked at.
#[tactic(auto, using(crate::proofs::FirstNumbers::none_first))]
pub fn unnumbered(attributes: &[Attribute]) -> [u8; MOST_ATTRIBUTES]
    ensures first { result ≡ unnumbered (take 64 attributes.now) }
    ensures whole { length attributes.now ≤ 64 → result ≡ unnumbered attributes.now }
{
    let mut numbers = [NONE; MOST_ATTRIBUTES];
    for (place, attribute) in attributes.iter().enumerate() {
        if place == MOST_ATTRIBUTES {
            break;
        }
        if attribute.kind.is_given() {
            numbers[place] = BEFORE_PASSES;
        }
    }
    numbers
}

// The attributes that want a number, those that are not given, as a set with bit a - 1. Attributes past the
// most that a grammar may have are not looked at.
pub fn wanting(attributes: &[Attribute]) -> Places
    ensures { (p : ℕ) → has result p ≡ (nat_lt p 64 && wanting_at attributes.now p) }
{
    let mut wanted = Places::default();
    for (place, attribute) in attributes.iter().enumerate() {
        if place == MOST_ATTRIBUTES {
            break;
        }
        if !attribute.kind.is_given() {
            wanted = wanted.with(place);
        }
    }
    wanted
}
