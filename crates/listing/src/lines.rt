// The lines of a listing.
#![tactic(auto, using(crate::proofs::Digits::sizes))]

ghost use Rattle.std.specs.Prelude.{◌≡◌, ◌+◌, ◌≤◌, ◌++◌, length};
ghost use Rattle.listing.specs.Listing.{attribute_line, book_listing, listing, pass_number, place_number, refusal_listing};

use crate::page::Page;
use grammar::Book;
use refusal::{Place, Refusal};

// In the place of a number, says that an attribute has none: a book keeps a byte for each attribute.
const NONE: u8 = 255;

// A page with the listing of what loading gave.
pub(crate) fn page_of(loaded: &Result<Book, Refusal>) -> Page
    ensures { result ≡ listing loaded.now }
{
    match loaded {
        Ok(book) => book_page(book),
        Err(refusal) => refusal_page(*refusal),
    }
}

fn book_page(book: &Book) -> Page
    ensures { result ≡ book_listing book.now }
{
    let mut page = Page::new();
    let attributes = book.vocabulary.attributes.iter();
    for (place, (attribute, number)) in attributes.zip(&book.numbers[..]).enumerate() {
        write_attribute(&mut page, place + 1, attribute.symbol, *number);
    }
    page.write(b"passes ");
    page.number(book.passes as usize);
    page.write(b"\n");
    page
}

// How much room is wanted differs from call to call, so each function says its own.
fn write_attribute(page: &mut Page, attribute: usize, symbol: u16, number: u8)
    requires { (attribute ≤ 64) × (length page.old + 13 ≤ 843) }
    ensures written { page.new ≡ page.old ++ attribute_line attribute symbol number }
    ensures short { length page.new ≤ length page.old + 13 }
{
    page.number(attribute);
    page.write(b" ");
    page.number(symbol as usize);
    page.write(b" ");
    write_pass_number(page, number);
    page.write(b"\n");
}

fn write_pass_number(page: &mut Page, number: u8)
    requires { length page.old + 3 ≤ 843 }
    ensures written { page.new ≡ page.old ++ pass_number number }
    ensures short { length page.new ≤ length page.old + 3 }
{
    if number == NONE {
        page.write(b"-");
    } else {
        page.number(number as usize);
    }
}

fn refusal_page(refusal: Refusal) -> Page
    ensures { result ≡ refusal_listing refusal }
{
    let mut page = Page::new();
    page.write(b"refused ");
    page.number(refusal.number() as usize);
    page.write(b" at ");
    page.number(place_number(refusal.place()));
    page.write(b"\n");
    page
}

// A function here and no `From`: only a listing leaves the attribute out.
fn place_number(place: Place) -> usize
    ensures { result ≡ place_number place }
{
    match place {
        Place::At(number) => number,
        Place::Instance(site) => site.node as usize,
    }
}
