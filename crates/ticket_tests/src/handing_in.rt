// Handing a ticket in, however its dispatch stands. A ticket cannot be let go, so each test hands it
// in before it looks at what was answered.
use crate::trial::{Outcome, Trial};
use book::answer::{Answer, Refusal};
use model::state::Condition;
use std::process::Abort;
use std::test::Fail;
use tickets::ticket::Ending;
use uses::two_uses::MOVE;

// A book where dispatch 2 is open without a ticket, and holds section 11.
fn another_holds_eleven(rt: &impl Abort) -> Trial {
    let mut trial = Trial::new();
    assert_eq!(rt; trial.open(2, 5), Ok(Answer::Ok));
    assert_eq!(rt; trial.claim(2, 11, MOVE), Ok(Answer::Granted));
    trial
}

// Checks what the calls that were made are answered.
fn check_answers(rt: &impl Abort, made: &[Outcome], expected: &[Outcome]) {
    assert_eq!(rt; made, expected);
}

// Checks how the ticket's dispatch ended, and that its number, 1, is free.
fn check_ending(
    rt: &impl Abort,
    trial: &Trial,
    ended: Result<Ending, Refusal>,
    expected: Result<Ending, Refusal>,
) {
    assert_eq!(rt; ended, expected);
    assert_eq!(rt; trial.condition(1), Ok(Condition::Free));
}

#[test]
fn a_running_dispatch_is_closed(rt: HostRuntime) -> Result<(), Fail> {
    let mut trial = Trial::new();
    let ticket = trial.open_ticket(1, 5)?;
    let named = ticket.dispatch();
    let claimed = trial.claim_by(&ticket, 10, MOVE);
    let ended = trial.hand_in(ticket);
    assert_eq!(rt; named, 1);
    check_answers(&rt, &[claimed], &[Ok(Answer::Granted)]);
    check_ending(&rt, &trial, ended, Ok(Ending::Closed));
    Ok(())
}

#[test]
fn a_waiting_dispatch_is_withdrawn(rt: HostRuntime) -> Result<(), Fail> {
    let mut trial = another_holds_eleven(&rt);
    let ticket = trial.open_ticket(1, 5)?;
    let claimed = trial.claim_by(&ticket, 11, MOVE);
    let ended = trial.hand_in(ticket);
    check_answers(&rt, &[claimed], &[Ok(Answer::Waits)]);
    check_ending(&rt, &trial, ended, Ok(Ending::Withdrawn));
    Ok(())
}

#[test]
fn a_recalled_dispatch_is_acknowledged(rt: HostRuntime) -> Result<(), Fail> {
    let mut trial = another_holds_eleven(&rt);
    let ticket = trial.open_ticket(1, 5)?;
    let first = trial.claim_by(&ticket, 10, MOVE);
    let other = trial.claim(2, 10, MOVE);
    let second = trial.claim_by(&ticket, 11, MOVE);
    let ended = trial.hand_in(ticket);
    let expected = [Ok(Answer::Granted), Ok(Answer::Waits), Ok(Answer::Recalled)];
    check_answers(&rt, &[first, other, second], &expected);
    check_ending(&rt, &trial, ended, Ok(Ending::Acknowledged));
    Ok(())
}

#[test]
fn a_number_that_has_become_free_is_refused(rt: HostRuntime) -> Result<(), Fail> {
    let mut trial = another_holds_eleven(&rt);
    let ticket = trial.open_ticket(1, 5)?;
    let closed = trial.close(1);
    let ended = trial.hand_in(ticket);
    check_answers(&rt, &[closed], &[Ok(Answer::Ok)]);
    check_ending(&rt, &trial, ended, Err(Refusal::IsFree));
    assert_eq!(rt; [trial.report.recalled, trial.report.woken], [0, 0]);
    assert_eq!(rt; trial.condition(2), Ok(Condition::Running));
    Ok(())
}

#[test]
fn a_number_opened_again_is_what_the_ticket_names(rt: HostRuntime) -> Result<(), Fail> {
    let mut trial = another_holds_eleven(&rt);
    let ticket = trial.open_ticket(1, 5)?;
    let closed = trial.close(1);
    let opened = trial.open(1, 7);
    let claimed = trial.claim(1, 11, MOVE);
    let ended = trial.hand_in(ticket);
    let expected = [Ok(Answer::Ok), Ok(Answer::Ok), Ok(Answer::Waits)];
    check_answers(&rt, &[closed, opened, claimed], &expected);
    check_ending(&rt, &trial, ended, Ok(Ending::Withdrawn));
    Ok(())
}
