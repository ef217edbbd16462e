// The sides of a production, and what the production's records may name.
ghost use Rattle.std.specs.Prelude.{◌≡◌, ℕ, ◌+◌, ◌<◌, ◌≤◌, Bool, true, false, not, ◌&&◌, ◌||◌, List, [], ◌∷◌, ◌++◌, map, length, vec_len, vec_items, OnOk, MatchOption, MatchResult, Ok, Err};
ghost use Rattle.grammar.specs.Arcs.{with_argument};
ghost use Rattle.grammar.specs.Grammar.{vocabulary_view, rule_view, production_view, attribute, symbol_at, occurs, defined, every_below, settled, complete};
ghost use Rattle.grammar.specs.Rules.{has_rule, target_of};
ghost use Rattle.tables.specs.Reading.{Gives, occurrence as occurrence_of, argument as argument_read, finished_production};

use crate::occurring::Occurring;
use crate::rules::Rules;
use grammar::vocabulary::MOST_ATTRIBUTES;
use grammar::{Board, Occurrence, Production, Vocabulary, arc_label};
use refusal::Refusal;
use tables::Record;

// Both sides of a production, and the vocabulary that they are from.
#[derive(Drop)]
pub(crate) struct Sides<'v> {
    pub vocabulary: &'v Vocabulary,
    pub left: u16,
    pub right: Vec<u16>,
    ghost few_attributes: { vec_len vocabulary.now.attributes ≤ 64 },
    ghost few_positions: { vec_len right ≤ 8 },
}

impl Sides<'_> {
    ghost use Rattle.loading.specs.Drafts.{vocabulary_of, right_of, has, kind_of, targets_of, next_target};

    fn symbol_at(&self, position: u16) -> Option<u16>
        ensures { MatchOption result (vec_len self.now.right < position) (λ s. (position ≤ vec_len self.now.right) × (s ≡ symbol_at self.now.left (right_of self.now) position)) }
    {
        match usize::from(position) {
            0 => Some(self.left),
            position => self.right.get(position - 1).copied(),
        }
    }

    // The occurrence, if the production has it.
    fn occurring(&self, occurrence: Occurrence) -> Option<Occurring>
        ensures { MatchOption result (has self.now occurrence ≡ false) (λ o. (has self.now occurrence ≡ true) × (o.occurrence ≡ occurrence) × (o.kind ≡ kind_of self.now occurrence)) }
    {
        let symbol = self.symbol_at(occurrence.position)?;
        let attribute = self.vocabulary.attribute(occurrence.attribute)?;
        if attribute.symbol != symbol {
            return None;
        }
        Some(Occurring {
            occurrence,
            kind: attribute.kind,
        })
    }

    // The occurrence that a rule or an argument names.
    fn named_by(&self, found: Record) -> Result<Occurring, Refusal>
        ensures { MatchResult result (λ o. (has self.now (occurrence_of found) ≡ true) × (o.occurrence ≡ occurrence_of found) × (o.kind ≡ kind_of self.now (occurrence_of found))) (λ e. (has self.now (occurrence_of found) ≡ false) × (e ≡ Refusal.NoSuch found.place)) }
    {
        let occurrence = Occurrence {
            position: found.w1,
            attribute: found.w2,
        };
        self.occurring(occurrence).ok_or(Refusal::NoSuch {
            record: found.place,
        })
    }

    // The target of the rule at a record, where a rule for it may stand after the others.
    pub(crate) fn target(&self, rules: &Rules, found: Record) -> Result<Occurring, Refusal>
        ensures { MatchResult result (λ t. (next_target self.now rules.now found ≡ Ok t.occurrence) × (t.occurrence ≡ occurrence_of found) × (has_rule (targets_of rules.now) t.occurrence ≡ false)) (λ e. next_target self.now rules.now found ≡ Err e) }
    {
        let target = self.named_by(found)?;
        if target.is_defined() && !rules.have(target) {
            Ok(target)
        } else {
            Err(Refusal::BadRule {
                record: found.place,
            })
        }
    }

    // Adds the argument at a record to the rule for `target`, and its label to the board.
    pub(crate) fn add_argument(
        &self,
        target: Occurring,
        arguments: &mut Vec<Occurrence>,
        board: &mut Board,
        found: Record,
    ) -> Result<(), Refusal>
        ensures value { (bytes : List ℕ) (admitted : ℕ → ℕ → ℕ → Bool) (s : List Bool) → Gives (λ _. arguments.new.items) result s (argument_read bytes (vocabulary_of self.now) admitted self.now.left (right_of self.now) arguments.old.items found s) }
        ensures len { OnOk result (vec_len arguments.new ≡ vec_len arguments.old + 1) }
        ensures items { OnOk result (arguments.new.items ≡ arguments.old.items ++ occurrence_of found ∷ []) }
        ensures board { OnOk result (board.new ≡ with_argument (vocabulary_of self.now) target.occurrence board.old (occurrence_of found)) }
    {
        let argument = self.named_by(found)?;
        if argument.is_defined() {
            return Err(Refusal::DefinedArgument {
                record: found.place,
            });
        }
        arguments.push(argument.occurrence)?;
        if !argument.kind.is_given() {
            let label = arc_label(argument.occurrence.position, target.occurrence.position);
            board[MOST_ATTRIBUTES * argument.column() + target.column()] |= label;
        }
        Ok(())
    }

    // Whether the occurrence, if it is a defined one of the production, has a rule.
    fn is_settled(&self, rules: &Rules, occurrence: Occurrence) -> bool
        ensures { result ≡ (not (has self.now occurrence && defined (vocabulary_of self.now) occurrence) || has_rule (targets_of rules.now) occurrence) }
    {
        self.occurring(occurrence)
            .is_none_or(|named| !named.is_defined() || rules.have(named))
    }

    // Whether each defined occurrence at the position has a rule.
    fn are_settled(&self, rules: &Rules, position: u16) -> bool
        ensures { result ≡ every_below (length (vocabulary_of self.now).attributes) (settled (vocabulary_of self.now) self.now.left (right_of self.now) (targets_of rules.now) position) }
    {
        let end = self.vocabulary.attributes.len() as u16 + 1;
        (1..end).all(|attribute| {
            self.is_settled(
                rules,
                Occurrence {
                    position,
                    attribute,
                },
            )
        })
    }

    // Whether each defined occurrence of the production has a rule.
    fn is_complete(&self, rules: &Rules) -> bool
        ensures { result ≡ complete (vocabulary_of self.now) self.now.left (right_of self.now) (targets_of rules.now) }
    {
        let end = self.right.len() as u16 + 1;
        (0..end).all(|position| self.are_settled(rules, position))
    }

    // Adds the production at a record, whose sides and rules are read.
    pub(crate) fn finish(
        self,
        rules: Rules,
        productions: &mut Vec<Production>,
        found: Record,
    ) -> Result<(), Refusal>
        requires { self.left ≡ found.w1 }
        ensures value { (bytes : List ℕ) (admitted : ℕ → ℕ → ℕ → Bool) (s : List Bool) → Gives (λ _. map production_view productions.new.items) result s (finished_production bytes (vocabulary_of self.entry) admitted (map production_view productions.old.items) found (right_of self.entry) (map rule_view rules.rules.items) s) }
        ensures len { OnOk result (vec_len productions.new ≡ vec_len productions.old + 1) }
        ensures items { OnOk result (map production_view productions.new.items ≡ map production_view productions.old.items ++ record { left = found.w1; right = right_of self.entry; rules = map rule_view rules.rules.items } ∷ []) }
    {
        if !self.is_complete(&rules) {
            return Err(Refusal::BadRule {
                record: found.place,
            });
        }
        let production = Production {
            left: self.left,
            right: self.right,
            rules: rules.rules,
            slots: rules.slots,
        };
        productions.push(production)?;
        Ok(())
    }
}
