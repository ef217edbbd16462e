// A table's bytes, and the records of it that were reached so far.
ghost use Rattle.std.specs.Prelude.{◌≡◌, ◌+◌, ◌*◌, ◌<◌, ◌≤◌, true, false, length, IfOk, IfErr};
ghost use Rattle.tables.specs.Chains.{word, record_at, follow, yields, free, one, sized, Sized};

use crate::record::{HEAD, Link, Record};
use refusal::Refusal;

pub const MOST_RECORDS: usize = 4096;

const RECORD_BYTES: usize = 12;

// Which records were reached: a fixed array, as there are never more. Not a part of the table, which loading
// only reads: in one `&mut` value each of its loops would have to carry that the bytes stay.
pub type Reached = [bool; MOST_RECORDS];

// The bytes of 1 to 4096 records, none of them cut off.
#[derive(Drop)]
pub struct Table<'a> {
    pub bytes: &'a [u8],
    ghost sized: { Sized bytes.now },
}

// A word of the record at a place: two bytes, the low one first.
fn word_at(bytes: &[u8], place: usize, k: usize) -> u16
    requires { 12 * place + 2 * k + 1 < length bytes.now }
    ensures { result ≡ word bytes.now place k }
{
    let at = RECORD_BYTES * place + 2 * k;
    u16::from_le_bytes([bytes[at], bytes[at + 1]])
}

// No `From`: a record is made of the table's bytes and its place.
fn record_at(bytes: &[u8], place: u16) -> Record
    requires { 12 * place + 12 ≤ length bytes.now }
    ensures { result ≡ record_at bytes.now place }
{
    let at = place as usize;
    Record {
        place,
        next: word_at(bytes, at, 0),
        w1: word_at(bytes, at, 1),
        w2: word_at(bytes, at, 2),
        w3: word_at(bytes, at, 3),
        w4: word_at(bytes, at, 4),
        w5: word_at(bytes, at, 5),
    }
}

impl<'a> Table<'a> {
    // The table, where the bytes are 1 to 4096 records.
    pub fn new(bytes: &'a [u8]) -> Result<Table<'a>, Refusal>
        ensures ok { IfOk result (λ t. (t.bytes.now ≡ bytes.now) × (sized bytes.now ≡ true)) }
        ensures err { IfErr result (λ e. (e ≡ Refusal.TableSize) × (sized bytes.now ≡ false)) }
    {
        if bytes.len() % RECORD_BYTES == 0
            && !bytes.is_empty()
            && bytes.len() <= RECORD_BYTES * MOST_RECORDS
        {
            Ok(Table { bytes })
        } else {
            Err(Refusal::TableSize)
        }
    }

    // The head of the table, its record 0.
    pub fn head(&self) -> Record
        ensures { result ≡ record_at self.now.bytes.now 0 }
    {
        record_at(self.bytes, HEAD)
    }

    // The record that the link's index names, or none where the index ends the chain.
    pub fn follow(&self, reached: &mut Reached, link: Link) -> Result<Option<Record>, Refusal>
        ensures value { yields result reached.new ≡ follow self.now.bytes.now link.holder link.index reached.old }
        ensures left { IfOk result (λ o. free reached.new + one o ≡ free reached.old) }
    {
        let Link { holder, index } = link;
        // 0 ends a chain, as tables have it.
        if index == 0 {
            return Ok(None);
        }
        let place = index as usize;
        if RECORD_BYTES * place + RECORD_BYTES > self.bytes.len() || reached[place] {
            return Err(Refusal::BadIndex { holder });
        }
        reached[place] = true;
        Ok(Some(record_at(self.bytes, index)))
    }
}
