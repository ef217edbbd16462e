// The rules of a production, as they are read.
ghost use Rattle.std.specs.Prelude.{◌≡◌, ℕ, ◌+◌, ◌<◌, Bool, false, List, [], ◌∷◌, ◌++◌, map, vec_len, OnOk};
ghost use Rattle.grammar.specs.Grammar.{Vocabulary as VocabularyView, rule_view};
ghost use Rattle.grammar.specs.Rules.{Indexed, has_rule, target_of};
ghost use Rattle.tables.specs.Reading.{Gives, occurrence as occurrence_of, finished_rule};

use crate::occurring::Occurring;
use grammar::production::SLOTS;
use grammar::{Occurrence, Rule};
use kinds::ValueKind;
use refusal::Refusal;
use std::alloc::Global;
use tables::Record;

// A production's rules so far, and the slots that they fill in it; 0 is an empty one, as in the production that takes
// them over.
#[derive(Drop)]
pub(crate) struct Rules {
    pub rules: Vec<Rule>,
    pub slots: [u16; SLOTS],
    ghost indexed: { Indexed slots (map target_of rules.items) },
}

impl Rules {
    pub(crate) fn new(heap: Global) -> Rules
        ensures len { vec_len result.rules ≡ 0 }
        ensures items { result.rules.items ≡ [] }
    {
        let slots = [0; SLOTS];
        Rules {
            rules: Vec::new(heap),
            slots,
        }
    }

    // Whether a rule is for the occurrence.
    pub(crate) fn have(&self, target: Occurring) -> bool
        ensures { result ≡ has_rule (map target_of self.now.rules.items) target.occurrence }
    {
        self.slots[target.slot()] != 0
    }

    // Adds the rule at a record, whose target and arguments are read.
    pub(crate) fn add<K: ValueKind>(
        &mut self,
        kind: &K,
        target: Occurring,
        arguments: Vec<Occurrence>,
        found: Record,
    ) -> Result<(), Refusal>
        requires few { vec_len self.old.rules < 4096 }
        requires target { target.occurrence ≡ occurrence_of found }
        requires first { has_rule (map target_of self.old.rules.items) target.occurrence ≡ false }
        ensures value { (bytes : List ℕ) (v : VocabularyView) (s : List Bool) → Gives (λ _. map rule_view self.new.rules.items) result s (finished_rule bytes v (K.ValueKind.admitted kind.now) (map rule_view self.old.rules.items) found arguments.items s) }
        ensures len { OnOk result (vec_len self.new.rules ≡ vec_len self.old.rules + 1) }
        ensures items { OnOk result (map rule_view self.new.rules.items ≡ map rule_view self.old.rules.items ++ record { target = target.occurrence; operation = found.w4; constant = found.w5; arguments = arguments.items } ∷ []) }
    {
        if !kind.admits(found.w4, found.w5, arguments.len()) {
            return Err(Refusal::NotAdmitted { rule: found.place });
        }
        let rule = Rule {
            target: target.occurrence,
            operation: found.w4,
            constant: found.w5,
            arguments,
        };
        self.rules.push(rule)?;
        self.slots[target.slot()] = self.rules.len() as u16;
        Ok(())
    }
}
