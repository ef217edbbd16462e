// Loads the table of each case that a line of the standard input holds, and prints what comes of it.
#![tactic(auto)]

mod case;
mod outcome;

use crate::case::{Case, Kind};
use crate::outcome::Outcome;
use grammar::vocabulary::MOST_ATTRIBUTES;
use kinds::lengths::Lengths;
use kinds::marks::Marks;
use loading::load;
use numbering::number;
use refusal::Refusal;
use std::alloc::Global;
use std::io;
use trees::check_tree;

// What comes of the case's table, and of its nodes or its plan, if it has any.
fn outcome_of(heap: Global, case: &Case) -> Result<Outcome, Refusal> {
    let table = case.table.as_slice();
    // A match, since kinds are types whose values differ in type, which no `dyn` covers.
    let mut book = match case.kind {
        Kind::Lengths => load(heap, table, &Lengths),
        Kind::Marks => load(heap, table, &Marks),
    }?;
    if let Some(nodes) = &case.nodes {
        check_tree(&book, nodes.as_slice())?;
        return Ok(Outcome::Tree);
    }
    let Some(plan) = case.plan else {
        return Ok(Outcome::Accepted(book));
    };
    let mut numbers = [0; MOST_ATTRIBUTES];
    let answer = number(&mut book, &plan, &mut numbers);
    Ok(Outcome::Numbered(book, answer))
}

// A line that is no case is reported, and the run goes on.
fn try_line(rt: &HostRuntime, line: &str) -> io::Result<()> {
    let (name, text) = line.split_once('|').unwrap_or((line, ""));
    let name = name.trim();
    match Case::read(rt.alloc(), text) {
        Ok(case) => match outcome_of(rt.alloc(), &case) {
            Ok(outcome) => println!(rt; "{name}: {outcome}"),
            Err(refusal) => println!(rt; "{name}: {refusal}"),
        },
        Err(fault) => println!(rt; "{name}: cannot be read: {fault}"),
    }
}

fn main(rt: HostRuntime) -> io::Result<()> {
    for line in rt.lines(rt.alloc()) {
        let line = line?;
        let text = line.trim();
        if !text.is_empty() && !text.starts_with('#') {
            try_line(&rt, text)?;
        }
    }
    Ok(())
}
