// A ticket, its calls, and how it ends.
ghost use Rattle.std.specs.Prelude.{◌≡◌, ◌<◌, IsTrue, Some};
ghost use Rattle.model.specs.State.{is_free};
ghost use Rattle.model.specs.declared.call.Call.TheVariants.{Open, Claim as ClaimCall};
ghost use Rattle.model.specs.declared.limits.TheConstants.{DISPATCHES};
ghost use Rattle.book.specs.Book.{state_of};

use book::answer::{Answer, Refusal};
use book::book::Book;
use model::call::Call;
use model::report::Report;
use model::state::Condition;
use orders::order::RecallOrder;
use std::fmt;
use uses::table::UseTable;

/// A ticket (a transaction handle): it stands for a dispatch that was opened.
///
/// It is a linear value: it cannot be copied, and it cannot be let go. It comes from
/// [`Ticket::open`] alone, and [`Ticket::hand_in`] alone spends it.
pub struct Ticket {
    dispatch: u32,
    // a dispatch that was opened has a number
    ghost small: { dispatch < DISPATCHES },
}

impl Ticket {
    ghost use Rattle.tickets.specs.Ticket.{dispatch_of, book_answer, condition_in, hand_in_call};
    ghost use Rattle.tickets.specs.Ticket.{hand_in_answer, Names, CountsAs, EndsBy};

    /// Opens a dispatch (begins a transaction), and gives its ticket if the opening is accepted.
    ///
    /// Counts as the book's call `open`; an `Err` is that call's refusal, and then there is no ticket.
    pub fn open<T: UseTable, O: RecallOrder>(
        book: &mut Book<T, O>,
        dispatch: u32,
        weight: u32,
        report: &mut Report,
    ) -> Result<Ticket, Refusal>
        ensures named { Names result dispatch }
        ensures counts { CountsAs T.meaning O.meaning book.old (Open dispatch weight)
            (book_answer result) report.new book.new }
    {
        book.open(dispatch, weight, report)?;
        Ok(Ticket { dispatch })
    }

    /// The number of the dispatch that the ticket names.
    pub fn dispatch(&self) -> u32
        ensures { result ≡ dispatch_of self.now }
    {
        self.dispatch
    }

    /// Claims a section for a use (requests a lock), for the ticket's dispatch.
    ///
    /// Counts as the book's call `claim`, and is answered or refused as that is.
    pub fn claim<T: UseTable, O: RecallOrder>(
        &self,
        book: &mut Book<T, O>,
        section: u32,
        mode: u32,
        report: &mut Report,
    ) -> Result<Answer, Refusal>
        ensures { CountsAs T.meaning O.meaning book.old
            (ClaimCall (dispatch_of self.now) section mode) result report.new book.new }
    {
        let asked = Call::Claim {
            dispatch: self.dispatch,
            section,
            mode,
        };
        book.carry_out(asked, report)
    }

    /// Ends the ticket's dispatch (commits or aborts), however it stands, and spends the ticket.
    ///
    /// Counts as the call that fits: a close, a withdrawal or an acknowledgement. Refused only if the
    /// number has become free (refusal 7): then somebody ended the dispatch without its ticket.
    pub fn hand_in<T: UseTable, O: RecallOrder>(
        self,
        book: &mut Book<T, O>,
        report: &mut Report,
    ) -> Result<Ending, Refusal>
        ensures ended { result
            ≡ hand_in_answer (condition_in T.meaning book.old (dispatch_of self)) }
        ensures counts { CountsAs T.meaning O.meaning book.old
            (hand_in_call (condition_in T.meaning book.old (dispatch_of self)) (dispatch_of self))
            (book_answer result) report.new book.new }
        ensures freed { IsTrue (is_free (state_of book.new) (dispatch_of self)) }
    {
        let Ticket { dispatch } = self;
        let condition = book.condition(dispatch)?.condition;
        Self::end(book, dispatch, condition, report)
    }

    // Ends a dispatch by the call that fits how it stands, and names the ending.
    fn end<T: UseTable, O: RecallOrder>(
        book: &mut Book<T, O>,
        dispatch: u32,
        condition: Condition,
        report: &mut Report,
    ) -> Result<Ending, Refusal>
        ensures { EndsBy T.meaning O.meaning book.old condition dispatch result
            report.new book.new }
    {
        match condition {
            Condition::Running => book.close(dispatch, report).and(Ok(Ending::Closed)),
            Condition::Waiting => book.withdraw(dispatch, report).and(Ok(Ending::Withdrawn)),
            Condition::Recalled => book
                .acknowledge(dispatch, report)
                .and(Ok(Ending::Acknowledged)),
            // the book refuses to close it
            Condition::Free => book.close(dispatch, report).and(Err(Refusal::IsFree)),
        }
    }
}

/// How a dispatch ended when its ticket was handed in.
#[derive(Clone, Copy, Debug, PartialEq, Eq)]
pub enum Ending {
    /// It ran (a commit).
    Closed,
    /// It waited (an abort).
    Withdrawn,
    /// It was recalled, and that has been noted.
    Acknowledged,
}

/// The words in which a program tells of the ending.
impl fmt::Display for Ending {
    ghost use Rattle.tickets.specs.Ticket.{ending_words};

    ghost output = { λ ending. Some (ending_words ending) };

    fn fmt<W: fmt::Write>(&self, f: &mut fmt::Formatter<W>) -> fmt::Result {
        f.write_str(match self {
            Ending::Closed => "closed",
            Ending::Withdrawn => "withdrawn, since it waited",
            Ending::Acknowledged => "its recall acknowledged",
        })
    }
}
