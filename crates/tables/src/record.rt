// The records of a table, and the links between them.
ghost use Rattle.std.specs.Prelude.{◌≡◌};

// The place of the head.
pub const HEAD: u16 = 0;

// Where a chain goes on: a record that holds an index, and that index.
#[derive(Clone, Copy)]
pub struct Link {
    pub holder: u16,
    pub index: u16,
}

// A record by its place in the table, by which other records name it: that is the layout of tables, in
// which 0 ends a chain. Its word 0 names the next record of its chain; what the others mean depends on
// what the record stands for:
//   head        next: first symbol, w1: first production, w2: start symbol
//   symbol      w1: kind, w2: first attribute
//   attribute   w1: kind
//   production  w1: left symbol, w2: first position, w3: first rule
//   position    w1: symbol
//   rule        w1: position, w2: attribute, w3: first argument, w4: operation, w5: constant
//   argument    w1: position, w2: attribute
#[derive(Clone, Copy)]
pub struct Record {
    pub place: u16,
    pub next: u16,
    pub w1: u16,
    pub w2: u16,
    pub w3: u16,
    pub w4: u16,
    pub w5: u16,
}

impl Record {
    // The link to the next record of its chain.
    pub fn next_link(self) -> Link
        ensures { result ≡ record { holder = self.place; index = self.next } }
    {
        self.link(self.next)
    }

    // The link that one of the record's words makes.
    pub fn link(self, word: u16) -> Link
        ensures { result ≡ record { holder = self.place; index = word } }
    {
        Link {
            holder: self.place,
            index: word,
        }
    }
}
