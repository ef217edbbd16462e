// Things that are numbered from 1, in the order of a list.
ghost use Rattle.std.specs.Prelude.{◌≡◌};
ghost use Rattle.std.specs.Option.{option_copied};
ghost use Rattle.grammar.specs.Members.{numbered};

// The one that has the number.
pub(crate) fn numbered<T>(items: &[T], number: u16) -> Option<&T>
    ensures { option_copied result ≡ numbered items.now number }
{
    let place = usize::from(number).checked_sub(1)?;
    items.get(place)
}
