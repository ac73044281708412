// Cycles of waits through all 64 dispatches.
use crate::trial::{Trial, claim};
use book::answer::Answer;
use model::call::Call;
use model::report::Report;
use model::state::{Condition, Detection};
use std::process::Abort;
use uses::two_uses::{LOOK, MOVE};

// Each dispatch moves on the section of its number.
fn move_on_own(rt: &impl Abort, trial: &mut Trial) {
    for dispatch in 0..64 {
        assert_eq!(rt;
            trial.make(claim(dispatch, dispatch, MOVE)),
            Ok(Answer::Granted)
        );
    }
}

// Each dispatch but the last wants the section of the next.
fn want_next(rt: &impl Abort, trial: &mut Trial) {
    for dispatch in 0..63 {
        assert_eq!(rt;
            trial.make(claim(dispatch, dispatch + 1, MOVE)),
            Ok(Answer::Waits)
        );
        assert_eq!(rt; trial.report.recalled, 0);
    }
}

// The last of the 64 is recalled, and who waited for it goes on.
fn check_one_recall(rt: &impl Abort, report: &Report) {
    assert_eq!(rt; [report.recalled, report.woken], [1, 1]);
    assert_eq!(rt; &report.dispatches[..3], [63, 62, 255].as_slice());
    assert_eq!(rt; &report.sections[..3], [0, 63, 65535].as_slice());
}

#[test]
fn the_newest_of_a_cycle_of_64_is_recalled(rt: HostRuntime) {
    let mut trial = Trial::new(Detection::Continuous);
    assert_eq!(rt; trial.open_all(64), Ok(Answer::Ok));
    move_on_own(&rt, &mut trial);
    want_next(&rt, &mut trial);
    trial.play(&rt, &[(claim(63, 0, MOVE), Ok(Answer::Recalled))]);
    check_one_recall(&rt, &trial.report);
}

// Each dispatch claims section 7 for the use, and is given the answer.
fn claim_seven(rt: &impl Abort, trial: &mut Trial, mode: u32, answer: Answer) {
    for dispatch in 0..64 {
        assert_eq!(rt; trial.make(claim(dispatch, 7, mode)), Ok(answer));
    }
}

// The newest first, and the oldest alone is left.
fn check_63_recalls(rt: &impl Abort, report: &Report) {
    assert_eq!(rt; report.recalled, 63);
    assert_eq!(rt; report.woken, 1);
    assert!(rt; report.dispatches.iter().copied().eq((0..64).rev()));
    assert_eq!(rt; report.sections, [7; 64]);
}

// Checks how the dispatch stands.
fn check_condition(rt: &impl Abort, trial: &Trial, dispatch: u32, condition: Condition) {
    let status = trial.book.condition(dispatch);
    assert_eq!(rt; status.map(|s| s.condition), Ok(condition));
}

#[test]
fn one_sweep_recalls_63(rt: HostRuntime) {
    let mut trial = Trial::new(Detection::Periodic);
    assert_eq!(rt; trial.open_all(64), Ok(Answer::Ok));
    claim_seven(&rt, &mut trial, LOOK, Answer::Granted);
    claim_seven(&rt, &mut trial, MOVE, Answer::Waits);
    trial.play(&rt, &[(Call::Sweep, Ok(Answer::Ok))]);
    check_63_recalls(&rt, &trial.report);
    check_condition(&rt, &trial, 0, Condition::Running);
    check_condition(&rt, &trial, 1, Condition::Recalled);
    check_condition(&rt, &trial, 63, Condition::Recalled);
}
