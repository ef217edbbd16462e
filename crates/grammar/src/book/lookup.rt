// Productions, found by their numbers.
ghost use Rattle.std.specs.Prelude.{◌≡◌, vec_items};
ghost use Rattle.std.specs.Option.{option_copied};
ghost use Rattle.grammar.specs.Members.{numbered};

use super::Book;
use crate::numbered::numbered;
use crate::production::Production;

impl Book {
    pub fn production(&self, number: u16) -> Option<&Production>
        ensures { option_copied result ≡ numbered (vec_items self.now.productions) number }
    {
        numbered(&self.productions, number)
    }
}
