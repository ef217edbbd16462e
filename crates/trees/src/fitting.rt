// What may stand at a node, by the book's grammar. A terminal has production 0, as rows of nodes have it.
// A book and a number are passed side by side: no value holds both.
ghost use Rattle.std.specs.Prelude.{◌≡◌};
ghost use Rattle.trees.specs.Checking.{fits, is_production, children_symbols};
ghost use Rattle.grammar.specs.OfBook.{grammar_of};

use grammar::{Book, SymbolKind};

// Whether a node of the symbol may have the production: one of that symbol, or 0 at a terminal.
pub(crate) fn fits(book: &Book, symbol: u16, production: u16) -> bool
    ensures { result ≡ fits (grammar_of book.now) symbol production }
{
    book.vocabulary
        .symbol(symbol)
        .is_some_and(|found| match found.kind {
            SymbolKind::Inner => is_production(book, symbol, production),
            SymbolKind::Terminal => production == 0,
        })
}

// Whether the number is that of a production with this left side.
fn is_production(book: &Book, left: u16, production: u16) -> bool
    ensures { result ≡ is_production (grammar_of book.now) left production }
{
    book.production(production)
        .is_some_and(|found| found.left == left)
}

// The symbols of the production's right side; none where there is no production.
pub(crate) fn right_side(book: &Book, production: u16) -> &[u16]
    ensures { result.now ≡ children_symbols (grammar_of book.now) production }
{
    book.production(production)
        .map_or(&[], |found| found.right.as_slice())
}
