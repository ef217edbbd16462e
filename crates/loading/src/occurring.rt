// Occurrences that a production has.
ghost use Rattle.std.specs.Prelude.{◌≡◌, ◌-◌};
ghost use Rattle.grammar.specs.Grammar.{defined_at};
ghost use Rattle.grammar.specs.Rules.{slot, Within};

use grammar::vocabulary::MOST_ATTRIBUTES;
use grammar::{AttributeKind, Occurrence};

// An occurrence of a production, with the kind of its attribute.
#[derive(Clone, Copy)]
pub(crate) struct Occurring {
    pub occurrence: Occurrence,
    pub kind: AttributeKind,
    ghost within: { Within occurrence },
}

impl Occurring {
    pub(crate) fn is_defined(self) -> bool
        ensures { result ≡ defined_at self.kind self.occurrence.position }
    {
        self.kind.is_defined_at(self.occurrence.position)
    }

    // Where a production keeps the number of the occurrence's rule.
    pub(crate) fn slot(self) -> usize
        ensures { result ≡ slot self.occurrence }
    {
        self.occurrence.slot().unwrap()
    }

    // The place of the attribute among all attributes.
    pub(crate) fn column(self) -> usize
        ensures { result ≡ self.occurrence.attribute - 1 }
    {
        usize::from(self.occurrence.attribute) - 1
    }
}
