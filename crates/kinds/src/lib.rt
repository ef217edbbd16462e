// Value kinds: what the values of attributes are, and what a rule's operation makes of them.
#![tactic(auto)]

ghost use Rattle.std.specs.Prelude.{◌≡◌, ℕ, Bool, false, None, Option};
ghost use Rattle.std.specs.Option.{ok_or};

use refusal::{Refusal, Site};

pub mod lengths;
pub mod marks;
#[cfg(test)]
mod tests;

// A rule's value starts from its constant and takes in one argument after another. The words of a rule are taken
// one by one, as the meaning has them, and an operation by its number, since any may stand in a table. No method has
// a body here: a shared one would ask more members of a kind.
pub trait ValueKind {
    type Value: Copy;

    // Which operations a rule may name, with which constant and how many arguments.
    ghost admitted: { Self → ℕ → ℕ → ℕ → Bool };

    // The value that a rule's operation starts from, by the constant and the number of arguments.
    ghost starts: { Self → ℕ → ℕ → ℕ → Option Self.Value };

    // What an operation makes of the value so far and one argument.
    ghost steps: { Self → ℕ → Self.Value → Self.Value → Option Self.Value };

    fn admits(&self, operation: u16, constant: u16, count: usize) -> bool
        ensures { result ≡ admitted self.now operation constant count };

    fn start(
        &self,
        site: Site,
        operation: u16,
        constant: u16,
        count: usize,
    ) -> Result<Self::Value, Refusal>
        ensures { result ≡ ok_or (starts self.now operation constant count) (Refusal.Undefined site) };

    fn step(
        &self,
        site: Site,
        operation: u16,
        so_far: Self::Value,
        argument: Self::Value,
    ) -> Result<Self::Value, Refusal>
        ensures { result ≡ ok_or (steps self.now operation so_far argument) (Refusal.Undefined site) };

    ghost unadmitted: { (k : Self) (operation constant count : ℕ) → admitted k operation constant count ≡ false → starts k operation constant count ≡ None };
}
