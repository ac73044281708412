// The words in which a call is printed.
use crate::{A, B};
use model::call::Call;
use std::fmt;
use uses::two_uses::Use;

// The station whose dispatch has the number, by its name.
#[derive(Clone, Copy)]
struct Station(u32);

impl fmt::Display for Station {
    fn fmt<W: fmt::Write>(&self, f: &mut fmt::Formatter<W>) -> fmt::Result {
        f.write_str(match self.0 {
            A => "station A",
            B => "station B",
            _ => "station ?",
        })
    }
}

// What a claim for the use is made for.
#[derive(Clone, Copy)]
struct Purpose(u32);

impl fmt::Display for Purpose {
    fn fmt<W: fmt::Write>(&self, f: &mut fmt::Formatter<W>) -> fmt::Result {
        match Use::try_from(self.0) {
            Ok(mode) => write!(f, "to {mode}"),
            Err(_) => f.write_str("for an unknown use"),
        }
    }
}

// A call as a sentence: who makes it, and what it asks for.
#[derive(Clone, Copy)]
pub(crate) struct Sentence(pub(crate) Call);

impl fmt::Display for Sentence {
    fn fmt<W: fmt::Write>(&self, f: &mut fmt::Formatter<W>) -> fmt::Result {
        match self.0 {
            Call::Open { dispatch, weight } => write!(
                f,
                "{} opens dispatch {dispatch} with weight {weight}",
                Station(dispatch)
            ),
            Call::Claim {
                dispatch,
                section,
                mode,
            } => write!(
                f,
                "{} claims dock {section} for dispatch {dispatch}, {}",
                Station(dispatch),
                Purpose(mode)
            ),
            Call::Close { dispatch } => {
                write!(f, "{} closes dispatch {dispatch}", Station(dispatch))
            }
            Call::Withdraw { dispatch } => {
                write!(f, "{} withdraws dispatch {dispatch}", Station(dispatch))
            }
            Call::Acknowledge { dispatch } => write!(
                f,
                "{} acknowledges the recall of dispatch {dispatch}",
                Station(dispatch)
            ),
            Call::Sweep => write!(f, "the book is swept"),
        }
    }
}
