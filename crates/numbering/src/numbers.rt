// The least numbering of a book's attributes.
ghost use Rattle.std.specs.Prelude.{◌≡◌, ℕ, ◌-◌, ◌≤◌, length, if◌then◌else◌, MatchOption, slice_index};
ghost use Rattle.bitset.specs.Sets.{has, many, Lowest};
ghost use Rattle.grammar.specs.Numberings.{Least, Numbered, number_of};
ghost use Rattle.grammar.specs.OfBook.{grammar_of};
ghost use Rattle.numbering.specs.Books.{Reported, SameGrammar};
ghost use Rattle.numbering.specs.Places.{place_graph, NumberedPlaces};

use crate::directions::{FIRST_PASS, directions_of};
use crate::passes::Relations;
use bitset::Places;
use grammar::vocabulary::MOST_ATTRIBUTES;
use grammar::{Attribute, Board, Book};
use plans::{Direction, Plan};

#[derive(Clone, Copy)]
pub struct Outcome {
    // The greatest number that an attribute has, or 0, which is printed as it stands.
    pub passes: u8,
    // The attributes that have no number, with place a - 1 for attribute a.
    pub unnumbered: Places,
    // How many these are.
    pub count: u32,
}

// Gives each attribute of the book the least number that it can have under the plan, and copies the
// numbers to the caller.
pub fn number<P: Plan>(book: &mut Book, plan: &P, numbering: &mut [u8; MOST_ATTRIBUTES]) -> Outcome
    ensures least { Least (grammar_of book.new) (P.Plan.directions plan.now) (number_of book.new.numbers) }
    ensures numbered { Numbered (grammar_of book.new) (P.Plan.directions plan.now) book.new.numbers book.new.passes book.new.unnumbered }
    ensures directions { book.new.directions ≡ P.Plan.directions plan.now }
    ensures bytes { numbering.new ≡ book.new.numbers }
    ensures answer { Reported book.new result.passes result.unnumbered result.count }
    ensures same { SameGrammar book.old book.new }
{
    let directions = directions_of(plan);
    let outcome = number_places(
        &book.arcs,
        &book.vocabulary.attributes,
        directions.as_slice(),
        numbering,
    );
    book.numbers = *numbering;
    book.passes = outcome.passes;
    book.unnumbered = outcome.unnumbered;
    book.directions = directions;
    outcome
}

// The first attribute that has no number.
pub fn first_unnumbered(unnumbered: Places) -> Option<u16>
    ensures { MatchOption result (unnumbered ≡ 0) (λ a. (1 ≤ a) × Lowest unnumbered 64 (a - 1)) }
{
    unnumbered.first().map(|place| place as u16 + 1)
}

// Works on places: an attribute's place is its number less 1. The bounds are those of a book and of a plan, whose
// parts these are.
fn number_places(
    arcs: &Board,
    attributes: &[Attribute],
    directions: &[Direction],
    numbers: &mut [u8; MOST_ATTRIBUTES],
) -> Outcome
    requires attributes { length attributes.now ≤ 64 }
    requires directions { length directions.now ≤ 128 }
    ensures places { NumberedPlaces (place_graph arcs.now attributes.now) directions.now (length attributes.now) numbers.new result.passes result.unnumbered }
    ensures count { result.count ≡ many (has result.unnumbered) 64 }
{
    let relations = Relations::of(arcs);
    let mut waiting = grammar::wanting(attributes);
    *numbers = grammar::unnumbered(attributes);
    let mut passes = 0;
    for (pass, direction) in (FIRST_PASS..).zip(directions) {
        if waiting.is_empty() {
            break;
        }
        let chosen = relations.computed_in(*direction, waiting);
        if !chosen.is_empty() {
            passes = pass;
        }
        assign(numbers, chosen, pass);
        waiting = waiting - chosen;
    }
    Outcome {
        passes,
        unnumbered: waiting,
        count: waiting.len(),
    }
}

// Gives the chosen attributes the number of a pass.
fn assign(numbers: &mut [u8; MOST_ATTRIBUTES], chosen: Places, pass: u8)
    ensures { (p : ℕ) → slice_index numbers.new p ≡ (if has chosen p then pass else slice_index numbers.old p) }
{
    for place in chosen {
        numbers[place] = pass;
    }
}
