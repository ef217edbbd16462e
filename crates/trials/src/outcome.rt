// What came of a table that is accepted, as it is printed.
use grammar::Book;
use grammar::vocabulary::MOST_ATTRIBUTES;
use numbering::Outcome as Answer;
use std::fmt;

// The arcs of books with more attributes are not printed.
const MOST_SHOWN: usize = 8;

#[derive(Drop)]
pub enum Outcome {
    Accepted(Book),
    Numbered(Book, Answer),
    Tree,
}

impl fmt::Display for Outcome {
    fn fmt<W: fmt::Write>(&self, f: &mut fmt::Formatter<W>) -> fmt::Result {
        match self {
            Outcome::Accepted(book) => show_book(book, f),
            Outcome::Tree => f.write_str("a derivation tree"),
            Outcome::Numbered(book, answer) => show_numbers(book, *answer, f),
        }
    }
}

// Functions, since books and answers are types of other crates.

// The numbers of the attributes, the greatest one, and the set of the unnumbered with their count.
fn show_numbers<W: fmt::Write>(
    book: &Book,
    answer: Answer,
    f: &mut fmt::Formatter<W>,
) -> fmt::Result {
    f.write_str("numbers")?;
    for number in book.numbers.iter().take(book.vocabulary.attributes.len()) {
        write!(f, " {number}")?;
    }
    let Answer {
        passes,
        unnumbered,
        count,
    } = answer;
    let unnumbered = u64::from(unnumbered);
    write!(
        f,
        "; passes {passes}; unnumbered {unnumbered}, {count} of them"
    )
}

fn show_book<W: fmt::Write>(book: &Book, f: &mut fmt::Formatter<W>) -> fmt::Result {
    let symbols = book.vocabulary.symbols.len();
    let attributes = book.vocabulary.attributes.len();
    let productions = book.productions.len();
    write!(
        f,
        "accepted: {symbols} symbols, {attributes} attributes, {productions} productions"
    )?;
    if attributes <= MOST_SHOWN {
        show_arcs(book, attributes, f)?;
    }
    Ok(())
}

// The labels that are not blank, by the numbers of the attributes.
fn show_arcs<W: fmt::Write>(book: &Book, count: usize, f: &mut fmt::Formatter<W>) -> fmt::Result {
    for (a, row) in book
        .arcs
        .chunks_exact(MOST_ATTRIBUTES)
        .take(count)
        .enumerate()
    {
        for (b, label) in row.iter().take(count).enumerate() {
            if *label != 0 {
                write!(f, "; {}>{} {label}", a + 1, b + 1)?;
            }
        }
    }
    Ok(())
}
