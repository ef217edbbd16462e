// A page on which a listing is written from the start.
ghost use Rattle.std.specs.Prelude.{◌≡◌, ◌+◌, ◌%◌, ◌≤◌, [], ◌++◌, length, decimal};

use std::marker::Model;

// The longest listing: a line of at most 13 bytes for each of 64 attributes, and a last one of 11.
const ROOM: usize = 843;

// The text written so far. A fixed array, so that a listing needs no heap.
#[derive(Drop)]
pub(crate) struct Page {
    bytes: [u8; ROOM],
    written: usize,
}

impl Model for Page {
    ghost use Rattle.std.specs.Prelude.{ℕ, ◌≤◌, List, take};

    ghost Value = { List ℕ };

    ghost view = { λ p. take p.written p.bytes };

    ghost invariant = { λ p. p.written ≤ 843 };
}

impl Page {
    pub(crate) fn new() -> Page
        ensures { result ≡ [] }
    {
        Page {
            bytes: [0; ROOM],
            written: 0,
        }
    }

    pub(crate) fn text(&self) -> &[u8]
        ensures { result.now ≡ self.now }
    {
        &self.bytes[..self.written]
    }

    pub(crate) fn write(&mut self, text: &[u8])
        requires { length self.old + length text.now ≤ 843 }
        ensures { self.new ≡ self.old ++ text.now }
    {
        let end = self.written + text.len();
        self.bytes[self.written..end].copy_from_slice(text);
        self.written = end;
    }

    // Writes a number in base ten. By hand, since std does not promise that `write!` never answers an error.
    pub(crate) fn number(&mut self, n: usize)
        requires { length self.old + length (decimal n) ≤ 843 }
        ensures { self.new ≡ self.old ++ decimal n }
    {
        if n >= 10 {
            self.number(n / 10);
        }
        self.write(&[last_digit(n)]);
    }
}

// A digit, for `number`.
fn last_digit(n: usize) -> u8
    ensures { result ≡ 48 + n % 10 }
{
    b'0' + (n % 10) as u8
}
