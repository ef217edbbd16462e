// The vocabulary of a grammar: its symbols, and the attributes that they have.

mod kinds;
mod lookup;

// The most attributes that a grammar may have.
pub const MOST_ATTRIBUTES: usize = 64;

#[derive(Clone, Copy, PartialEq, Eq, Debug)]
pub enum SymbolKind {
    Inner,
    Terminal,
}

#[derive(Clone, Copy, PartialEq, Eq, Debug)]
pub enum AttributeKind {
    Inherited,
    Synthesized,
    Given,
}

// A symbol has `count` attributes, numbered in a row from `first` on, since attributes are numbered through all symbols.
#[derive(Clone, Copy, PartialEq, Eq, Debug)]
pub struct Symbol {
    pub kind: SymbolKind,
    pub first: u16,
    pub count: u16,
}

// An attribute of a symbol, which goes by its number.
#[derive(Clone, Copy, PartialEq, Eq, Debug)]
pub struct Attribute {
    pub symbol: u16,
    pub kind: AttributeKind,
}

// Symbols and attributes are numbered from 1, in the order of the lists.
#[derive(Drop)]
pub struct Vocabulary {
    pub start: u16,
    pub symbols: Vec<Symbol>,
    pub attributes: Vec<Attribute>,
}
