// Each refusal, but that for want of room.
use crate::trial::{Trial, acknowledge, claim, close, open, withdraw};
use book::answer::{Answer, Refusal};
use model::state::Detection;
use std::process::Abort;
use uses::two_uses::MOVE;

#[test]
fn a_number_that_is_too_high_is_refused(rt: HostRuntime) {
    let calls = [
        (open(64, 5), Err(Refusal::NumberTooHigh)),
        (open(63, 1001), Err(Refusal::WeightTooHigh)),
        (open(63, 1000), Ok(Answer::Ok)),
        (claim(63, 1024, MOVE), Err(Refusal::SectionTooHigh)),
        (claim(63, 1023, 2), Err(Refusal::NotKnown)),
        (claim(63, 1023, MOVE), Ok(Answer::Granted)),
    ];
    Trial::new(Detection::Continuous).play(&rt, &calls);
}

#[test]
fn an_open_and_a_free_dispatch_are_refused(rt: HostRuntime) {
    let calls = [
        (open(1, 5), Ok(Answer::Ok)),
        (open(1, 5), Err(Refusal::IsOpen)),
        (claim(2, 10, MOVE), Err(Refusal::IsFree)),
        (close(2), Err(Refusal::IsFree)),
        (withdraw(2), Err(Refusal::IsFree)),
        (acknowledge(1), Err(Refusal::NotRecalled)),
    ];
    Trial::new(Detection::Continuous).play(&rt, &calls);
}

// Dispatch 1 holds section 10 and waits for section 11, which dispatch 2 holds.
fn one_waits(rt: &impl Abort) -> Trial {
    let calls = [
        (open(1, 5), Ok(Answer::Ok)),
        (open(2, 5), Ok(Answer::Ok)),
        (claim(1, 10, MOVE), Ok(Answer::Granted)),
        (claim(2, 11, MOVE), Ok(Answer::Granted)),
        (claim(1, 11, MOVE), Ok(Answer::Waits)),
    ];
    let mut trial = Trial::new(Detection::Continuous);
    trial.play(rt, &calls);
    trial
}

#[test]
fn a_waiting_dispatch_is_refused(rt: HostRuntime) {
    let calls = [
        (claim(1, 12, MOVE), Err(Refusal::IsWaiting)),
        (close(1), Err(Refusal::IsWaiting)),
        (withdraw(1), Ok(Answer::Ok)),
    ];
    one_waits(&rt).play(&rt, &calls);
}

#[test]
fn a_recalled_dispatch_is_refused(rt: HostRuntime) {
    let calls = [
        (claim(2, 10, MOVE), Ok(Answer::Recalled)),
        (open(2, 5), Err(Refusal::IsRecalled)),
        (claim(2, 10, MOVE), Err(Refusal::IsRecalled)),
        (close(2), Err(Refusal::IsRecalled)),
        (acknowledge(2), Ok(Answer::Ok)),
        (acknowledge(2), Err(Refusal::NotRecalled)),
        (open(2, 5), Ok(Answer::Ok)),
    ];
    one_waits(&rt).play(&rt, &calls);
}
