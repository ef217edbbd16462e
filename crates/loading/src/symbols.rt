// Reads the vocabulary of a table: its symbols, each with its attributes.
ghost use Rattle.std.specs.Prelude.{◌≡◌, ℕ, ◌≤◌, IfOk, vec_len, OnOk};
ghost use Rattle.grammar.specs.Kinds.{attribute_kind};
ghost use Rattle.tables.specs.Reading.{Gives, standing, attributes as attributes_read, symbols as symbols_read};
ghost use Rattle.loading.specs.Views.{gathered};

use grammar::vocabulary::MOST_ATTRIBUTES;
use grammar::{Attribute, AttributeKind, Symbol, SymbolKind, Vocabulary};
use refusal::Refusal;
use std::alloc::Global;
use tables::{HEAD, Link, Reached, Record, Table};

const MOST_SYMBOLS: usize = 48;

const MOST_OF_ONE_SYMBOL: usize = 16;

// A symbol whose attributes are read, and whether it is the start symbol.
#[derive(Clone, Copy)]
struct Owner {
    number: u16,
    kind: SymbolKind,
    starts: bool,
}

impl Owner {
    // The kind that a number names, where an attribute of that kind may stand at the symbol.
    fn attribute_kind(self, number: u16) -> Option<AttributeKind>
        ensures { result ≡ standing self.kind self.starts (attribute_kind number) }
    {
        AttributeKind::try_from(number)
            .ok()
            .filter(|kind| kind.may_stand_at(self.kind, self.starts))
    }
}

// Adds the attributes of the symbol at the record `at`. The bound is what reading symbol by symbol keeps.
fn read_attributes(
    table: &Table,
    reached: &mut Reached,
    attributes: &mut Vec<Attribute>,
    owner: Owner,
    at: Record,
) -> Result<(), Refusal>
    requires { vec_len attributes.old ≤ 64 }
    ensures few { OnOk result (vec_len attributes.new ≤ 64) }
    ensures more { OnOk result (vec_len attributes.old ≤ vec_len attributes.new) }
    ensures value { Gives (λ _. attributes.new.items) result reached.new (attributes_read table.now.bytes.now owner.number owner.kind owner.starts attributes.old.items at reached.old) }
{
    let before = attributes.len();
    let mut link = at.link(at.w2);
    'attributes: while let Some(found) = table.follow(reached, link)? {
        if attributes.len() - before == MOST_OF_ONE_SYMBOL || attributes.len() == MOST_ATTRIBUTES {
            return Err(Refusal::CountPassed {
                record: found.place,
            });
        }
        let Some(kind) = owner.attribute_kind(found.w1) else {
            return Err(Refusal::BadKind {
                record: found.place,
            });
        };
        let attribute = Attribute {
            symbol: owner.number,
            kind,
        };
        attributes.push(attribute)?;
        link = found.next_link();
    }
    Ok(())
}

// The symbols of the chain that begins at `first`, with their attributes.
pub(crate) fn read_vocabulary(
    heap: Global,
    table: &Table,
    reached: &mut Reached,
    start: u16,
    first: u16,
) -> Result<Vocabulary, Refusal>
    ensures start { IfOk result (λ v. v.start ≡ start) }
    ensures few { IfOk result (λ v. vec_len v.attributes ≤ 64) }
    ensures value { Gives gathered result reached.new (symbols_read table.now.bytes.now start first reached.old) }
{
    let mut symbols = Vec::new(heap);
    let mut attributes = Vec::new(heap);
    let mut link = Link {
        holder: HEAD,
        index: first,
    };
    'symbols: while let Some(found) = table.follow(reached, link)? {
        if symbols.len() == MOST_SYMBOLS {
            return Err(Refusal::CountPassed {
                record: found.place,
            });
        }
        let Ok(kind) = SymbolKind::try_from(found.w1) else {
            return Err(Refusal::BadKind {
                record: found.place,
            });
        };
        let number = symbols.len() as u16 + 1;
        let owner = Owner {
            number,
            kind,
            starts: start == number,
        };
        let first = attributes.len() as u16 + 1;
        read_attributes(table, reached, &mut attributes, owner, found)?;
        let count = attributes.len() as u16 + 1 - first;
        symbols.push(Symbol { kind, first, count })?;
        link = found.next_link();
    }
    Ok(Vocabulary {
        start,
        symbols,
        attributes,
    })
}
