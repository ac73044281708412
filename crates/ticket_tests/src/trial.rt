// A book under test, with the report of its last call. Some of its dispatches are opened by ticket.
use book::answer::{Answer, Refusal};
use book::book::Book;
use model::report::Report;
use model::state::{Condition, Detection};
use orders::single::Newest;
use tickets::ticket::{Ending, Ticket};
use uses::two_uses::TwoUses;

// What a call is answered.
pub(crate) type Outcome = Result<Answer, Refusal>;

// A book, and the report that each of its calls fills. `book_tests` has one of its own, without
// tickets: shared, it would have to be public, and this crate to stand on the console.
#[derive(Drop)]
pub(crate) struct Trial {
    pub(crate) book: Book<TwoUses, Newest>,
    pub(crate) report: Report,
}

impl Trial {
    // A new continuous book of two uses that recalls the newest, and a report that names nobody.
    pub(crate) fn new() -> Trial {
        Trial {
            book: Book::new(TwoUses, Newest, Detection::Continuous),
            report: Report::empty(),
        }
    }

    // The call `open` of a ticket.
    pub(crate) fn open_ticket(&mut self, dispatch: u32, weight: u32) -> Result<Ticket, Refusal> {
        Ticket::open(&mut self.book, dispatch, weight, &mut self.report)
    }

    // The call `claim` of a ticket.
    pub(crate) fn claim_by(&mut self, ticket: &Ticket, section: u32, mode: u32) -> Outcome {
        ticket.claim(&mut self.book, section, mode, &mut self.report)
    }

    // The call `hand_in` of a ticket.
    pub(crate) fn hand_in(&mut self, ticket: Ticket) -> Result<Ending, Refusal> {
        ticket.hand_in(&mut self.book, &mut self.report)
    }

    // The call `open` of the book, which gives no ticket.
    pub(crate) fn open(&mut self, dispatch: u32, weight: u32) -> Outcome {
        self.book.open(dispatch, weight, &mut self.report)
    }

    // The call `claim` of the book.
    pub(crate) fn claim(&mut self, dispatch: u32, section: u32, mode: u32) -> Outcome {
        self.book.claim(dispatch, section, mode, &mut self.report)
    }

    // The call `close` of the book.
    pub(crate) fn close(&mut self, dispatch: u32) -> Outcome {
        self.book.close(dispatch, &mut self.report)
    }

    // How does the dispatch stand?
    pub(crate) fn condition(&self, dispatch: u32) -> Result<Condition, Refusal> {
        Ok(self.book.condition(dispatch)?.condition)
    }
}
