// Reads the productions of a table, each with its rules and their arguments.
ghost use Rattle.std.specs.Prelude.{◌≡◌, ℕ, ◌≤◌, Bool, List, [], map, IfOk, if◌then◌else◌, Err, vec_items, vec_len};
ghost use Rattle.refusal.specs.declared.Refusal.TheVariants.{NoSuch};
ghost use Rattle.grammar.specs.Arcs.{with_productions};
ghost use Rattle.grammar.specs.Grammar.{vocabulary_view, production_view, is_inner};
ghost use Rattle.tables.specs.Chains.{along};
ghost use Rattle.tables.specs.Reading.{Gives, position as position_read, productions as productions_read};
ghost use Rattle.loading.specs.Checks.{inside};

use crate::rules::Rules;
use crate::sides::Sides;
use grammar::{Board, Production, Vocabulary};
use kinds::ValueKind;
use refusal::Refusal;
use std::alloc::Global;
use tables::{HEAD, Link, Reached, Record, Table};

const MOST_PRODUCTIONS: usize = 128;

const MOST_POSITIONS: usize = 8;

const MOST_ARGUMENTS: usize = 8;

// Whether a number is that of a symbol that may stand on a right side.
fn is_inside(vocabulary: &Vocabulary, number: u16) -> bool
    ensures { result ≡ inside (vocabulary_view vocabulary.now) number }
{
    vocabulary.symbol(number).is_some() && number != vocabulary.start
}

// The right side of the production at the record `at`, whose left side is checked first.
fn read_right_side(
    heap: Global,
    table: &Table,
    reached: &mut Reached,
    vocabulary: &Vocabulary,
    at: Record,
) -> Result<Vec<u16>, Refusal>
    ensures few { IfOk result (λ right. vec_len right ≤ 8) }
    ensures value { (admitted : ℕ → ℕ → ℕ → Bool) → Gives vec_items result reached.new (if is_inner (vocabulary_view vocabulary.now) at.w1 then along table.now.bytes.now (position_read table.now.bytes.now (vocabulary_view vocabulary.now) admitted) 8 [] at.place at.w2 reached.old else Err (NoSuch at.place)) }
{
    if !vocabulary.is_inner(at.w1) {
        return Err(Refusal::NoSuch { record: at.place });
    }
    let mut right = Vec::new(heap);
    let mut link = at.link(at.w2);
    'positions: while let Some(found) = table.follow(reached, link)? {
        if right.len() == MOST_POSITIONS {
            return Err(Refusal::CountPassed {
                record: found.place,
            });
        }
        if !is_inside(vocabulary, found.w1) {
            return Err(Refusal::NoSuch {
                record: found.place,
            });
        }
        right.push(found.w1)?;
        link = found.next_link();
    }
    Ok(right)
}

// The productions of the chain that begins at `first`. The first fault stops all reading: one function, which it
// leaves by a labelled break out of three loops (docs/DECISIONS.md), so what is a `?` elsewhere is a match or an
// `if let` here. The bound on attributes is what reading the vocabulary ensures.
pub(crate) fn read_productions<K: ValueKind>(
    heap: Global,
    table: &Table,
    reached: &mut Reached,
    kind: &K,
    vocabulary: &Vocabulary,
    board: &mut Board,
    first: u16,
) -> Result<Vec<Production>, Refusal>
    requires { vec_len vocabulary.now.attributes ≤ 64 }
    ensures value { Gives (λ ps. map production_view ps.items) result reached.new (productions_read table.now.bytes.now (vocabulary_view vocabulary.now) (K.ValueKind.admitted kind.now) first reached.old) }
    ensures board { IfOk result (λ ps. board.new ≡ with_productions (vocabulary_view vocabulary.now) (map production_view ps.items) board.old) }
{
    let mut productions = Vec::new(heap);
    let mut link = Link {
        holder: HEAD,
        index: first,
    };
    let fault = 'productions: loop {
        let found = match table.follow(reached, link) {
            Ok(found) => found,
            Err(fault) => break 'productions Some(fault),
        };
        let Some(production) = found else {
            break 'productions None;
        };
        if productions.len() == MOST_PRODUCTIONS {
            break 'productions Some(Refusal::CountPassed {
                record: production.place,
            });
        }
        let right = match read_right_side(heap, table, reached, vocabulary, production) {
            Ok(right) => right,
            Err(fault) => break 'productions Some(fault),
        };
        let sides = Sides {
            vocabulary,
            left: production.w1,
            right,
        };
        let mut rules = Rules::new(heap);
        let mut rule_link = production.link(production.w3);
        'rules: loop {
            let found = match table.follow(reached, rule_link) {
                Ok(found) => found,
                Err(fault) => break 'productions Some(fault),
            };
            let Some(rule) = found else {
                break 'rules;
            };
            let target = match sides.target(&rules, rule) {
                Ok(target) => target,
                Err(fault) => break 'productions Some(fault),
            };
            let mut arguments = Vec::new(heap);
            let mut argument_link = rule.link(rule.w3);
            'arguments: loop {
                let found = match table.follow(reached, argument_link) {
                    Ok(found) => found,
                    Err(fault) => break 'productions Some(fault),
                };
                let Some(argument) = found else {
                    break 'arguments;
                };
                if arguments.len() == MOST_ARGUMENTS {
                    break 'productions Some(Refusal::CountPassed {
                        record: argument.place,
                    });
                }
                if let Err(fault) = sides.add_argument(target, &mut arguments, board, argument) {
                    break 'productions Some(fault);
                }
                argument_link = argument.next_link();
            }
            if let Err(fault) = rules.add(kind, target, arguments, rule) {
                break 'productions Some(fault);
            }
            rule_link = rule.next_link();
        }
        if let Err(fault) = sides.finish(rules, &mut productions, production) {
            break 'productions Some(fault);
        }
        link = production.next_link();
    };
    match fault {
        Some(fault) => Err(fault),
        None => Ok(productions),
    }
}
