// The rule of an occurrence, found in its slot without a search.
ghost use Rattle.std.specs.Prelude.{◌≡◌, ◌<◌, map, None, Some, IfSome};
ghost use Rattle.std.specs.Option.{option_map};
ghost use Rattle.grammar.specs.Grammar.{rule_view};
ghost use Rattle.grammar.specs.Lookup.{rule_of};
ghost use Rattle.grammar.specs.Rules.{slot, Within};

use super::{Occurrence, Production, Rule};
use crate::numbered::numbered;
use crate::vocabulary::MOST_ATTRIBUTES;

// The longest right side ends at this position.
const LAST_POSITION: u16 = 8;

impl Occurrence {
    // Where a production keeps the number of the occurrence's rule, if it can have the occurrence.
    pub fn slot(self) -> Option<usize>
        ensures within { Within self → result ≡ Some (slot self) }
        ensures outside { (Within self → ⊥) → result ≡ None }
        ensures kept { IfSome result (λ place. place < 576) }
    {
        let attribute = usize::from(self.attribute).checked_sub(1)?;
        (self.position <= LAST_POSITION && attribute < MOST_ATTRIBUTES).then_some(
            MOST_ATTRIBUTES * usize::from(self.position) + attribute,
        )
    }
}

impl Production {
    // The rule whose target is the occurrence.
    pub fn rule_for(&self, occurrence: Occurrence) -> Option<&Rule>
        ensures within { Within occurrence → option_map (λ x. rule_view x.now) result ≡ rule_of (map rule_view self.now.rules.items) occurrence }
        ensures outside { (Within occurrence → ⊥) → result ≡ None }
    {
        numbered(&self.rules, self.slots[occurrence.slot()?])
    }
}
