// Kinds by the numbers that a table has for them.
ghost use Rattle.std.specs.Prelude.{◌≡◌};
ghost use Rattle.grammar.specs.Kinds.{symbol_kind, attribute_kind, Named};
ghost use Rattle.grammar.specs.Lawful.{may_stand};

use super::{AttributeKind, SymbolKind};
use refusal::Unlisted;

impl TryFrom<u16> for SymbolKind {
    type Error = Unlisted;

    ghost try_from_gives = { Named symbol_kind };

    fn try_from(number: u16) -> Result<SymbolKind, Unlisted> {
        match number {
            1 => Ok(SymbolKind::Inner),
            2 => Ok(SymbolKind::Terminal),
            _ => Err(Unlisted(number)),
        }
    }
}

impl TryFrom<u16> for AttributeKind {
    type Error = Unlisted;

    ghost try_from_gives = { Named attribute_kind };

    fn try_from(number: u16) -> Result<AttributeKind, Unlisted> {
        match number {
            1 => Ok(AttributeKind::Inherited),
            2 => Ok(AttributeKind::Synthesized),
            3 => Ok(AttributeKind::Given),
            _ => Err(Unlisted(number)),
        }
    }
}

impl AttributeKind {
    // Whether such an attribute may stand at a symbol of the kind, which may be the start symbol.
    pub fn may_stand_at(self, symbol: SymbolKind, starts: bool) -> bool
        ensures { result ≡ may_stand symbol starts self }
    {
        match (symbol, self) {
            (SymbolKind::Inner, AttributeKind::Inherited) => !starts,
            (SymbolKind::Inner, AttributeKind::Synthesized)
            | (SymbolKind::Terminal, AttributeKind::Given) => true,
            _ => false,
        }
    }
}
