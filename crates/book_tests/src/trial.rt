// A book on trial, with the report of its last call.
use crate::setting::{new_book, open_all};
use book::answer::{Answer, Refusal};
use book::book::Book;
use model::call::Call;
use model::report::Report;
use model::state::Detection;
use orders::single::Newest;
use std::process::Abort;
use uses::two_uses::TwoUses;

// What a call is answered.
pub(crate) type Outcome = Result<Answer, Refusal>;

// A book, and the report that each of its calls fills.
#[derive(Drop)]
pub(crate) struct Trial {
    pub(crate) book: Book<TwoUses, Newest>,
    pub(crate) report: Report,
}

impl Trial {
    // A new book, and a report that names nobody.
    pub(crate) fn new(detection: Detection) -> Trial {
        Trial {
            book: new_book(detection),
            report: Report::empty(),
        }
    }

    // Opens the dispatches below `count`, in the order of their numbers.
    pub(crate) fn open_all(&mut self, count: u32) -> Outcome {
        open_all(&mut self.book, count, &mut self.report)
    }

    // Makes a call.
    pub(crate) fn make(&mut self, call: Call) -> Outcome {
        self.book.carry_out(call, &mut self.report)
    }

    // Makes calls one after another, and checks what each is answered.
    pub(crate) fn play(&mut self, rt: &impl Abort, calls: &[(Call, Outcome)]) {
        for (call, outcome) in calls {
            assert_eq!(rt; self.make(*call), *outcome);
        }
    }
}

pub(crate) fn open(dispatch: u32, weight: u32) -> Call {
    Call::Open { dispatch, weight }
}

pub(crate) fn claim(dispatch: u32, section: u32, mode: u32) -> Call {
    Call::Claim {
        dispatch,
        section,
        mode,
    }
}

pub(crate) fn close(dispatch: u32) -> Call {
    Call::Close { dispatch }
}

pub(crate) fn withdraw(dispatch: u32) -> Call {
    Call::Withdraw { dispatch }
}

pub(crate) fn acknowledge(dispatch: u32) -> Call {
    Call::Acknowledge { dispatch }
}
