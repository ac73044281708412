// A book with all its claims.
use crate::trial::{Trial, claim, close};
use book::answer::{Answer, Refusal};
use model::state::Detection;
use std::ops::Range;
use std::process::Abort;
use uses::two_uses::{LOOK, MOVE};

// The dispatch moves on each of the sections.
fn claim_each(rt: &impl Abort, trial: &mut Trial, dispatch: u32, sections: Range<u32>) {
    for section in sections {
        assert_eq!(rt;
            trial.make(claim(dispatch, section, MOVE)),
            Ok(Answer::Granted)
        );
    }
}

// A book whose 64 dispatches move on eight sections each: 512 claims.
fn full_book(rt: &impl Abort) -> Trial {
    let mut trial = Trial::new(Detection::Continuous);
    assert_eq!(rt; trial.open_all(64), Ok(Answer::Ok));
    for dispatch in 0..64 {
        claim_each(rt, &mut trial, dispatch, dispatch * 8..dispatch * 8 + 8);
    }
    trial
}

#[test]
fn the_513th_claim_is_refused(rt: HostRuntime) {
    // free, held by another, and covered
    let calls = [
        (claim(0, 600, LOOK), Err(Refusal::NoRoom)),
        (claim(0, 8, LOOK), Err(Refusal::NoRoom)),
        (claim(0, 7, LOOK), Ok(Answer::Covered)),
    ];
    full_book(&rt).play(&rt, &calls);
}

#[test]
fn a_close_makes_room_for_its_eight(rt: HostRuntime) {
    let mut trial = full_book(&rt);
    trial.play(&rt, &[(close(63), Ok(Answer::Ok))]);
    claim_each(&rt, &mut trial, 0, 504..512);
    let calls = [
        (claim(0, 600, MOVE), Err(Refusal::NoRoom)),
        (claim(0, 511, MOVE), Ok(Answer::Covered)),
    ];
    trial.play(&rt, &calls);
}
