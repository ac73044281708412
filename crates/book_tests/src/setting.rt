// The books and the first calls of the trials.
use book::answer::{Answer, Refusal};
use book::book::Book;
use model::report::Report;
use model::state::Detection;
use orders::single::Newest;
use uses::two_uses::TwoUses;

// A book of two uses that recalls the newest.
pub fn new_book(detection: Detection) -> Book<TwoUses, Newest> {
    Book::new(TwoUses, Newest, detection)
}

// Opens the dispatches below `count`, in the order of their numbers.
pub fn open_all(
    book: &mut Book<TwoUses, Newest>,
    count: u32,
    report: &mut Report,
) -> Result<Answer, Refusal> {
    for dispatch in 0..count {
        book.open(dispatch, 5, report)?;
    }
    Ok(Answer::Ok)
}
