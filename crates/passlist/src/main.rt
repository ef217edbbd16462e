// Reads a table from standard input, loads it over lengths, numbers its attributes, and prints the listing or
// the refusal.
#![tactic(auto)]

use anyhow::{anyhow, ensure};
use grammar::Book;
use grammar::vocabulary::MOST_ATTRIBUTES;
use kinds::lengths::Lengths;
use listing::list;
use loading::load;
use numbering::number;
use plans::Direction;
use plans::alternating::Alternating;
use refusal::Refusal;
use std::alloc::Global;
use std::io::{Read, Write};

const LONGEST_TABLE: usize = 49152;

const LONGEST_PLAN: u16 = 128;

// No listing is longer.
const LONGEST_LISTING: usize = 1024;

// Bytes past the longest table are read and let go: one too many is enough to have it refused. By hand, as std's readers
// take memory before a byte is there, or tell the want of it otherwise, and take more of a message at once.
fn read_table(input: &mut impl Read, heap: Global) -> anyhow::Result<Vec<u8>> {
    let mut bytes = Vec::new(heap);
    for _ in 0..u64::MAX {
        let mut chunk = [0u8; 4096];
        let count = input.read(&mut chunk)?;
        if count == 0 {
            break;
        }
        if bytes.len() <= LONGEST_TABLE {
            bytes.extend_from_slice(&chunk[..count])?;
        }
    }
    Ok(bytes)
}

// The book of a table, numbered under the longest alternating plan, left first.
fn numbered_book(heap: Global, bytes: &[u8]) -> Result<Book, Refusal> {
    let mut book = load(heap, bytes, &Lengths)?;
    let plan = Alternating::new(Direction::Left, LONGEST_PLAN)?;
    let mut numbering = [0u8; MOST_ATTRIBUTES];
    number(&mut book, &plan, &mut numbering);
    Ok(book)
}

fn main(rt: HostRuntime) -> anyhow::Result<()> {
    let bytes = read_table(&mut rt.stdin(), rt.alloc())?;
    let loaded = numbered_book(rt.alloc(), bytes.as_slice());
    ensure!(
        !matches!(loaded, Err(Refusal::OutOfMemory)),
        "out of memory"
    );
    let mut buffer = [0u8; LONGEST_LISTING];
    let length = list(&loaded, &mut buffer).map_err(|_| anyhow!("the listing is too long"))?;
    rt.stdout().write_all(&buffer[..length])?;
    Ok(())
}
