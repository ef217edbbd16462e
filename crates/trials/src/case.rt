// A case of the trials, and the notation in which it is written on a line:
//   NAME | KIND PLAN | RECORDS | BYTES | NODES
// PLAN, which may be left out, has a letter L or R for each pass. The records stand between semicolons and their words between blanks; words at the end of a
// record that are left out are 0. The word `+` is the place of the record behind its own.
// `*9 1 2` are nine records 1 2, and `*9` nine empty ones. BYTES, which may be left out, adds
// so many bytes at the end of the table (`+1`) or cuts them off (`-1`). NODES, which may be left out, are written as
// records are: symbol, production, first child, next brother.
use plans::written::Written;
use std::alloc::{AllocError, AllocFailed, Global};
use std::fmt;
use std::num::ParseIntError;
use std::str::FromStr;
use trees::Node;

const RECORD_BYTES: usize = 12;

const WORDS: usize = 6;

#[derive(Clone, Copy)]
pub enum Kind {
    Lengths,
    Marks,
}

#[derive(Drop)]
pub struct Case {
    pub kind: Kind,
    pub plan: Option<Written>,
    pub table: Vec<u8>,
    pub nodes: Option<Vec<Node>>,
}

// Why a line is no case.
#[derive(Clone, Copy)]
pub enum Unreadable {
    Fields,
    Kind,
    Plan,
    Number,
    Words,
    Memory,
}

#[derive(Clone, Copy)]
enum Word {
    Is(u16),
    NextPlace,
}

#[derive(Clone, Copy)]
struct Record([Word; WORDS]);

// Two impls, since std has two errors for want of memory and `?` takes either.
impl From<AllocError> for Unreadable {
    fn from(_error: AllocError) -> Unreadable {
        Unreadable::Memory
    }
}

impl<T: Drop> From<AllocFailed<T>> for Unreadable {
    fn from(_refused: AllocFailed<T>) -> Unreadable {
        Unreadable::Memory
    }
}

impl From<ParseIntError> for Unreadable {
    fn from(_error: ParseIntError) -> Unreadable {
        Unreadable::Number
    }
}

impl fmt::Display for Unreadable {
    fn fmt<W: fmt::Write>(&self, f: &mut fmt::Formatter<W>) -> fmt::Result {
        f.write_str(match self {
            Unreadable::Fields => "fields are missing",
            Unreadable::Kind => "there is no such value kind",
            Unreadable::Plan => "there is no such plan",
            Unreadable::Number => "a number from 0 to 65535 is wanted",
            Unreadable::Words => "a record has more than six words",
            Unreadable::Memory => "memory ran out",
        })
    }
}

impl FromStr for Kind {
    type Err = Unreadable;

    fn from_str(text: &str) -> Result<Kind, Unreadable> {
        match text {
            "lengths" => Ok(Kind::Lengths),
            "marks" => Ok(Kind::Marks),
            _ => Err(Unreadable::Kind),
        }
    }
}

impl FromStr for Word {
    type Err = Unreadable;

    fn from_str(text: &str) -> Result<Word, Unreadable> {
        match text {
            "+" => Ok(Word::NextPlace),
            _ => Ok(Word::Is(text.parse()?)),
        }
    }
}

impl FromStr for Record {
    type Err = Unreadable;

    fn from_str(text: &str) -> Result<Record, Unreadable> {
        let mut words = [Word::Is(0); WORDS];
        let mut places = words.iter_mut();
        for text in text.split_whitespace() {
            let place = places.next().ok_or(Unreadable::Words)?;
            *place = text.parse()?;
        }
        Ok(Record(words))
    }
}

impl Record {
    // What its words say, where the next record has the place given.
    fn numbers(self, next_place: usize) -> [u16; WORDS] {
        self.0.map(|word| match word {
            Word::Is(number) => number,
            Word::NextPlace => u16::try_from(next_place).unwrap_or(u16::MAX),
        })
    }
}

impl Case {
    // The case in what follows the name on a line.
    pub fn read(heap: Global, text: &str) -> Result<Case, Unreadable> {
        let (kind, text) = text.split_once('|').ok_or(Unreadable::Fields)?;
        let (kind, plan) = kind.trim().split_once(' ').unwrap_or((kind.trim(), ""));
        let kind = kind.parse()?;
        let plan = plan_of(plan.trim())?;
        let (records, text) = text.split_once('|').unwrap_or((text, "+0"));
        let table = table_of(heap, records)?;
        let (ending, nodes) = match text.split_once('|') {
            Some((ending, nodes)) => (ending, Some(nodes_of(heap, nodes)?)),
            None => (text, None),
        };
        let table = resized(table, ending.trim())?;
        Ok(Case {
            kind,
            plan,
            table,
            nodes,
        })
    }
}

fn plan_of(letters: &str) -> Result<Option<Written>, Unreadable> {
    if letters.is_empty() {
        return Ok(None);
    }
    Written::new(letters.as_bytes())
        .map(Some)
        .map_err(|_| Unreadable::Plan)
}

// The allocator is passed beside the text of which a part is kept.
fn table_of(heap: Global, text: &str) -> Result<Vec<u8>, Unreadable> {
    let mut table = Vec::new(heap);
    each_record(text, |record| {
        for number in record.numbers(table.len() / RECORD_BYTES + 1) {
            table.extend_from_slice(&number.to_le_bytes())?;
        }
        Ok(())
    })?;
    Ok(table)
}

fn nodes_of(heap: Global, text: &str) -> Result<Vec<Node>, Unreadable> {
    let mut nodes = Vec::new(heap);
    if text.trim().is_empty() {
        return Ok(nodes);
    }
    each_record(text, |record| {
        let [symbol, production, first_child, next_brother, _, _] = record.numbers(nodes.len() + 1);
        nodes.push(Node {
            symbol,
            production,
            first_child,
            next_brother,
        })?;
        Ok(())
    })?;
    Ok(nodes)
}

// Hands on the records of a text, each as often as it stands there.
fn each_record<F: FnMut(Record) -> Result<(), Unreadable>>(
    text: &str,
    mut add: F,
) -> Result<(), Unreadable>
    requires { F.IsAlwaysCallable add }
{
    for text in text.split(';') {
        let (times, record) = repeated(text.trim())?;
        for _ in 0..times {
            add(record)?;
        }
    }
    Ok(())
}

// A record, and how often it stands there.
fn repeated(text: &str) -> Result<(u16, Record), Unreadable> {
    let Some(text) = text.strip_prefix('*') else {
        return Ok((1, text.parse()?));
    };
    let (times, record) = text.split_once(' ').unwrap_or((text, ""));
    Ok((times.parse()?, record.parse()?))
}

// Adds bytes at the end, or cuts them off.
fn resized(mut table: Vec<u8>, text: &str) -> Result<Vec<u8>, Unreadable> {
    if let Some(cut) = text.strip_prefix('-') {
        let left = table.len().saturating_sub(usize::from(cut.parse::<u16>()?));
        table.truncate(left);
        return Ok(table);
    }
    let added = text.strip_prefix('+').ok_or(Unreadable::Number)?;
    let length = table.len() + usize::from(added.parse::<u16>()?);
    table.resize(length, 0)?;
    Ok(table)
}
