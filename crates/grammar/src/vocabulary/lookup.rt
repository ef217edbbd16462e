// Symbols and attributes, found by their numbers.
ghost use Rattle.std.specs.Prelude.{◌≡◌};
ghost use Rattle.std.specs.Option.{option_copied};
ghost use Rattle.grammar.specs.Grammar.{vocabulary_view, is_inner, given, defined_at};
ghost use Rattle.grammar.specs.Members.{numbered};

use super::{Attribute, AttributeKind, Symbol, SymbolKind, Vocabulary};
use crate::numbered::numbered;

impl Vocabulary {
    pub fn symbol(&self, number: u16) -> Option<&Symbol>
        ensures { option_copied result ≡ numbered (vocabulary_view self.now).symbols number }
    {
        numbered(&self.symbols, number)
    }

    pub fn attribute(&self, number: u16) -> Option<&Attribute>
        ensures { option_copied result ≡ numbered (vocabulary_view self.now).attributes number }
    {
        numbered(&self.attributes, number)
    }

    // Whether the number is that of an inner symbol.
    pub fn is_inner(&self, number: u16) -> bool
        ensures { result ≡ is_inner (vocabulary_view self.now) number }
    {
        self.symbol(number)
            .is_some_and(|symbol| symbol.kind == SymbolKind::Inner)
    }
}

impl AttributeKind {
    // Whether the values of such attributes are there before the first pass.
    pub fn is_given(self) -> bool
        ensures { result ≡ given self }
    {
        self == AttributeKind::Given
    }

    // Whether an occurrence at the position is a defined one, if its attribute is of this kind.
    pub fn is_defined_at(self, position: u16) -> bool
        ensures { result ≡ defined_at self position }
    {
        match self {
            AttributeKind::Inherited => position > 0,
            AttributeKind::Synthesized => position == 0,
            AttributeKind::Given => false,
        }
    }
}
