// A book: a lawful grammar with its arc board, and the numbers of its attributes.
ghost use Rattle.std.specs.Prelude.{◌≡◌, ◌≤◌, length};
ghost use Rattle.grammar.specs.Arcs.{board_of};
ghost use Rattle.grammar.specs.Books.{grammar_view};
ghost use Rattle.grammar.specs.Lawful.{Lawful};
ghost use Rattle.grammar.specs.Numberings.{Numbered};

use crate::board::Board;
use crate::directions::Directions;
use crate::production::Production;
use crate::vocabulary::{MOST_ATTRIBUTES, Vocabulary};
use bitset::Places;

mod lookup;

// Attribute a has its number at place a - 1: 0 if it is given, 255 for none, as callers have it in their 64
// bytes; the unnumbered ones are a set with place a - 1. `passes` is the greatest number that an attribute has.
// The directions are those of the plan that the numbers are for; a book that is not numbered has none.
#[derive(Drop)]
pub struct Book {
    pub vocabulary: Vocabulary,
    pub productions: Vec<Production>,
    pub arcs: Board,
    pub numbers: [u8; MOST_ATTRIBUTES],
    pub passes: u8,
    pub unnumbered: Places,
    pub directions: Directions,
    ghost lawful: { ∥ Lawful (grammar_view vocabulary productions) ∥₁ },
    ghost labelled: { arcs ≡ board_of (grammar_view vocabulary productions) },
    ghost few: { length directions ≤ 128 },
    ghost numbered: { ∥ Numbered (grammar_view vocabulary productions) directions numbers passes unnumbered ∥₁ },
}
