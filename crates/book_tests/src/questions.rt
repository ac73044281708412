// The three questions, on a small book.
use crate::trial::{Trial, claim};
use book::answer::{Answer, Refusal, Status};
use dispatch_set::DispatchSet;
use model::state::{Condition, Detection};
use std::process::Abort;
use uses::two_uses::{LOOK, MOVE};

// Dispatches 1 and 2 look at section 10, dispatch 0 waits to move there; dispatch 3 is free.
fn small_book(rt: &impl Abort) -> Trial {
    let calls = [
        (claim(1, 10, LOOK), Ok(Answer::Granted)),
        (claim(2, 10, LOOK), Ok(Answer::Granted)),
        (claim(0, 10, MOVE), Ok(Answer::Waits)),
    ];
    let mut trial = Trial::new(Detection::Continuous);
    assert_eq!(rt; trial.open_all(3), Ok(Answer::Ok));
    trial.play(rt, &calls);
    trial
}

// Dispatches 1 and 2.
fn one_and_two() -> DispatchSet {
    let mut marks = DispatchSet::none();
    marks.insert(1);
    marks.insert(2);
    marks
}

// Checks how the dispatch stands, and for which section it waits.
fn check_status(
    rt: &impl Abort,
    trial: &Trial,
    dispatch: u32,
    condition: Condition,
    waiting_section: Option<u16>,
) {
    let status = Status {
        condition,
        waiting_section,
    };
    assert_eq!(rt; trial.book.condition(dispatch), Ok(status));
}

#[test]
fn how_does_a_dispatch_stand(rt: HostRuntime) {
    let trial = small_book(&rt);
    check_status(&rt, &trial, 0, Condition::Waiting, Some(10));
    check_status(&rt, &trial, 1, Condition::Running, None);
    check_status(&rt, &trial, 3, Condition::Free, None);
    assert_eq!(rt; trial.book.condition(64), Err(Refusal::NumberTooHigh));
}

// Checks for whom the dispatch waits, and what is answered.
fn check_waited_for(
    rt: &impl Abort,
    trial: &Trial,
    dispatch: u32,
    found: DispatchSet,
    answer: Result<(), Refusal>,
) {
    let mut marks = one_and_two();
    assert_eq!(rt; trial.book.waited_for(dispatch, &mut marks), answer);
    assert_eq!(rt; marks, found);
}

#[test]
fn for_whom_does_a_dispatch_wait(rt: HostRuntime) {
    let trial = small_book(&rt);
    check_waited_for(&rt, &trial, 1, DispatchSet::none(), Ok(()));
    check_waited_for(&rt, &trial, 0, one_and_two(), Ok(()));
    check_waited_for(
        &rt,
        &trial,
        64,
        DispatchSet::none(),
        Err(Refusal::NumberTooHigh),
    );
}

// Checks who holds the section, and what is answered.
fn check_holders(
    rt: &impl Abort,
    trial: &Trial,
    section: u32,
    found: DispatchSet,
    answer: Result<(), Refusal>,
) {
    let mut marks = one_and_two();
    assert_eq!(rt; trial.book.holders(section, &mut marks), answer);
    assert_eq!(rt; marks, found);
}

#[test]
fn who_holds_a_section(rt: HostRuntime) {
    let trial = small_book(&rt);
    check_holders(&rt, &trial, 11, DispatchSet::none(), Ok(()));
    check_holders(&rt, &trial, 10, one_and_two(), Ok(()));
    check_holders(
        &rt,
        &trial,
        1024,
        DispatchSet::none(),
        Err(Refusal::SectionTooHigh),
    );
}
