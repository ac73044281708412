#![tactic(auto)]

// Plays the story that the book was made for, a deadlock of two stations that each want the other's
// dock, and prints each call with its answer and its report.
use book::book::Book;
use model::call::Call;
use model::report::{Report, ReportEntries, ReportEntry};
use model::state::Detection;
use orders::single::Newest;
use std::io;
use uses::two_uses::{MOVE, TwoUses};
use words::Sentence;

mod words;

// Station A's dispatch, its weight, and its dock.
const A: u32 = 1;

const WEIGHT_A: u32 = 5;

const DOCK_A: u32 = 10;

// Station B's dispatch, its weight, and its two docks. It weighs more and holds more than A's, so
// that neither lightest nor fewest would recall it.
const B: u32 = 2;

const WEIGHT_B: u32 = 8;

const DOCK_B: u32 = 11;

const SECOND_DOCK_B: u32 = 12;

// What is printed before the calls that lead to the deadlock.
const BEFORE_THE_DEADLOCK: &str = "THE STALL AT THE DOCKS

Only one dispatch at a time may move on a dock.
Each station takes its own docks, and then wants one of the other's.
So each would wait for the other for ever. The book sees it at the last claim
and recalls the dispatch that was opened last: all its claims are taken out,
and the other dispatch goes on.
";

// What is printed before the calls that come after it.
const BEFORE_THE_END: &str = "
The dispatch that went on is closed. The recalled one is opened again, and now
nothing is in its way.
";

// Each station takes its own docks, and then wants one of the other's.
const DEADLOCK: [Call; 7] = [
    Call::Open {
        dispatch: A,
        weight: WEIGHT_A,
    },
    Call::Open {
        dispatch: B,
        weight: WEIGHT_B,
    },
    Call::Claim {
        dispatch: A,
        section: DOCK_A,
        mode: MOVE,
    },
    Call::Claim {
        dispatch: B,
        section: DOCK_B,
        mode: MOVE,
    },
    Call::Claim {
        dispatch: B,
        section: SECOND_DOCK_B,
        mode: MOVE,
    },
    Call::Claim {
        dispatch: A,
        section: DOCK_B,
        mode: MOVE,
    },
    Call::Claim {
        dispatch: B,
        section: DOCK_A,
        mode: MOVE,
    },
];

// Who goes on comes to an end; who was recalled begins again.
const AFTER: [Call; 6] = [
    Call::Acknowledge { dispatch: B },
    Call::Close { dispatch: A },
    Call::Open {
        dispatch: B,
        weight: WEIGHT_B,
    },
    Call::Claim {
        dispatch: B,
        section: DOCK_B,
        mode: MOVE,
    },
    Call::Claim {
        dispatch: B,
        section: DOCK_A,
        mode: MOVE,
    },
    Call::Close { dispatch: B },
];

// Prints a line for each that a report names as recalled, or as woken.
fn print_entries(rt: &impl Print, what: &str, entries: ReportEntries<'_>) -> io::Result<()> {
    for entry in entries {
        let ReportEntry { dispatch, section } = entry;
        println!(rt; "  {what} dispatch {dispatch}, which waited for dock {section}")?;
    }
    Ok(())
}

// Carries out one call, and prints it with its answer and its report.
fn play(rt: &impl Print, book: &mut Book<TwoUses, Newest>, call: Call) -> io::Result<()> {
    let mut report = Report::empty();
    let sentence = Sentence(call);
    match book.carry_out(call, &mut report) {
        Ok(answer) => println!(rt; "{sentence}: {answer}")?,
        Err(refusal) => println!(rt; "{sentence}: {refusal}")?,
    }
    print_entries(rt, "recalled:", report.recalls())?;
    print_entries(rt, "goes on: ", report.wakes())
}

// Carries the calls out, one after another.
fn play_all(rt: &impl Print, book: &mut Book<TwoUses, Newest>, calls: &[Call]) -> io::Result<()> {
    for call in calls {
        play(rt, book, *call)?;
    }
    Ok(())
}

fn main(rt: HostRuntime) -> io::Result<()> {
    let mut book = Book::new(TwoUses, Newest, Detection::Continuous);
    println!(rt; "{BEFORE_THE_DEADLOCK}")?;
    play_all(&rt, &mut book, &DEADLOCK)?;
    println!(rt; "{BEFORE_THE_END}")?;
    play_all(&rt, &mut book, &AFTER)
}
