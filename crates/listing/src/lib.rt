// Listings: the attributes of a book with their pass numbers, or why loading was refused.
#![tactic(auto)]

ghost use Rattle.std.specs.Prelude.{◌≡◌};
ghost use Rattle.listing.specs.Listing.{answer, filled, listing};

use grammar::Book;
use lines::page_of;
use refusal::Refusal;

mod lines;
mod page;
#[cfg(test)]
mod tests;

// Writes the listing of what loading gave, and answers its length; a buffer too short stays as it is.
pub fn list(loaded: &Result<Book, Refusal>, buffer: &mut [u8]) -> Result<usize, Refusal>
    ensures answer { result ≡ answer (listing loaded.now) buffer.old }
    ensures buffer { buffer.new ≡ filled (listing loaded.now) buffer.old }
{
    let page = page_of(loaded);
    let text = page.text();
    let needed = text.len();
    if needed > buffer.len() {
        return Err(Refusal::ListingTooLong { needed });
    }
    buffer[..needed].copy_from_slice(text);
    Ok(needed)
}
