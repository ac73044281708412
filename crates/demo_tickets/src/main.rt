#![tactic(auto)]

// A station's own program, as it runs in a cabinet by the track, played against a far station. It
// opens by ticket, so it cannot forget a dispatch on any way out: the language refuses a program that
// lets a ticket go.
use book::answer::{Answer, Refusal};
use book::book::Book;
use model::call::Call;
use model::report::Report;
use model::state::Detection;
use orders::single::Newest;
use std::io;
use tickets::ticket::{Ending, Ticket};
use uses::two_uses::{MOVE, TwoUses};

// This station's dispatch, its weight, and its way: its own dock and feeder, the span between, the
// far dock.
const OURS: u32 = 1;

const OUR_WEIGHT: u32 = 8;

const DOCK: u32 = 10;

const FEEDER: u32 = 15;

const SPAN: u32 = 20;

const FAR_DOCK: u32 = 11;

const WAY: [u32; 4] = [DOCK, FEEDER, SPAN, FAR_DOCK];

// The far station's dispatch, and its weight. That station has a program of its own. It weighs less
// and holds less than ours, so that lightest and fewest would recall it.
const THEIRS: u32 = 2;

const THEIR_WEIGHT: u32 = 5;

// It opens, and moves on the span.
const THEY_COME: [Call; 2] = [
    Call::Open {
        dispatch: THEIRS,
        weight: THEIR_WEIGHT,
    },
    Call::Claim {
        dispatch: THEIRS,
        section: SPAN,
        mode: MOVE,
    },
];

// It wants our dock too.
const THEY_CROSS: [Call; 1] = [Call::Claim {
    dispatch: THEIRS,
    section: DOCK,
    mode: MOVE,
}];

// How a trip went.
#[derive(Clone, Copy)]
struct Trip {
    // how many sections of the way were granted
    granted: usize,
    ending: Ending,
}

// What the far station calls. Its answers go to the far station.
fn far_station(book: &mut Book<TwoUses, Newest>, calls: &[Call]) {
    let mut report = Report::empty();
    for call in calls {
        let _ = book.carry_out(*call, &mut report);
    }
}

// Claims each section of the way until one is not granted, and counts those that were. After each
// grant the far station calls.
fn advance(
    book: &mut Book<TwoUses, Newest>,
    ticket: &Ticket,
    way: &[u32],
    meanwhile: &[Call],
) -> usize {
    let mut report = Report::empty();
    for (granted, section) in way.iter().enumerate() {
        match ticket.claim(book, *section, MOVE, &mut report) {
            Ok(Answer::Granted | Answer::Covered) => far_station(book, meanwhile),
            // it waits, was recalled or is refused: this station turns back
            _ => return granted,
        }
    }
    way.len()
}

// Opens by ticket, and advances. However far that went, the ticket is handed in.
fn travel(
    book: &mut Book<TwoUses, Newest>,
    way: &[u32],
    meanwhile: &[Call],
) -> Result<Trip, Refusal> {
    let mut report = Report::empty();
    let ticket = Ticket::open(book, OURS, OUR_WEIGHT, &mut report)?;
    let granted = advance(book, &ticket, way, meanwhile);
    let ending = ticket.hand_in(book, &mut report)?;
    Ok(Trip { granted, ending })
}

// Prints how far the trip went, and how it ended.
fn print_trip(rt: &impl Print, trip: Trip) -> io::Result<()> {
    let Trip { granted, ending } = trip;
    for section in WAY.iter().take(granted) {
        println!(rt; "  claims section {section}: granted")?;
    }
    if let Some(section) = WAY.get(granted) {
        println!(rt; "  claims section {section}: not granted")?;
    }
    println!(rt; "  hands the ticket in: {ending}")
}

// Travels, and then prints how it went. Nothing is printed while the ticket is out: printing can fail.
fn play(rt: &impl Print, book: &mut Book<TwoUses, Newest>, meanwhile: &[Call]) -> io::Result<()> {
    let travelled = travel(book, &WAY, meanwhile);
    println!(rt; "  opens dispatch {OURS} by ticket")?;
    match travelled {
        Ok(trip) => print_trip(rt, trip),
        Err(refusal) => println!(rt; "  {refusal}"),
    }
}

fn main(rt: HostRuntime) -> io::Result<()> {
    let mut book = Book::new(TwoUses, Newest, Detection::Continuous);
    println!(rt; "A STATION THAT TRAVELS BY TICKET\n\nThe way is free.")?;
    play(&rt, &mut book, &[])?;
    println!(rt; "\nThe far station moves on section {SPAN}.")?;
    far_station(&mut book, &THEY_COME);
    play(&rt, &mut book, &[])?;
    println!(rt; "\nIt still does, and claims section {DOCK} as soon as we are on it.")?;
    play(&rt, &mut book, &THEY_CROSS)
}
