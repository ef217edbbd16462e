// Loads a book from the bytes of a table.
ghost use Rattle.std.specs.Prelude.{◌≡◌, [], IfOk};
ghost use Rattle.grammar.specs.Books.{unnumbered as unnumbered_of};
ghost use Rattle.tables.specs.Reading.{reading};
ghost use Rattle.loading.specs.Loading.{Loads, Judges};

use crate::productions::read_productions;
use crate::symbols::read_vocabulary;
use grammar::board::BOARD_PLACES;
use grammar::{Book, Directions, unnumbered, wanting};
use kinds::ValueKind;
use refusal::Refusal;
use std::alloc::Global;
use tables::table::MOST_RECORDS;
use tables::{HEAD, Table};

// The book that a table holds, with the operations that the value kind admits, or the first
// fault that is met in reading it. No attribute has a number yet but the given ones.
pub fn load<K: ValueKind>(heap: Global, bytes: &[u8], kind: &K) -> Result<Book, Refusal>
    ensures reading { Loads result (reading bytes.now (K.ValueKind.admitted kind.now)) }
    ensures judges { Judges bytes.now (K.ValueKind.admitted kind.now) result }
    ensures numbers { IfOk result (λ b. b.numbers ≡ unnumbered_of b.vocabulary.attributes.items) }
    ensures passes { IfOk result (λ b. (b.passes ≡ 0) × (b.directions ≡ [])) }
{
    let table = Table::new(bytes)?;
    let head = table.head();
    let mut reached = [false; MOST_RECORDS];
    let vocabulary = read_vocabulary(heap, &table, &mut reached, head.w2, head.next)?;
    if !vocabulary.is_inner(head.w2) {
        return Err(Refusal::NoSuch { record: HEAD });
    }
    let mut arcs = [0u8; BOARD_PLACES];
    let productions = read_productions(
        heap,
        &table,
        &mut reached,
        kind,
        &vocabulary,
        &mut arcs,
        head.w1,
    )?;
    let numbers = unnumbered(vocabulary.attributes.as_slice());
    let wanted = wanting(vocabulary.attributes.as_slice());
    let directions = Directions::new();
    Ok(Book {
        vocabulary,
        productions,
        arcs,
        numbers,
        passes: 0,
        unnumbered: wanted,
        directions,
    })
}
