// An opening that is refused gives no ticket.
use crate::trial::Trial;
use book::answer::Refusal;
use tickets::ticket::Ending;

// Opens by ticket, and hands the ticket in at once.
fn open_and_hand_in(trial: &mut Trial, dispatch: u32, weight: u32) -> Result<Ending, Refusal> {
    let ticket = trial.open_ticket(dispatch, weight)?;
    trial.hand_in(ticket)
}

#[test]
fn a_refused_opening_gives_no_ticket(rt: HostRuntime) {
    let mut trial = Trial::new();
    assert_eq!(rt;
        open_and_hand_in(&mut trial, 64, 5).err(),
        Some(Refusal::NumberTooHigh)
    );
    assert_eq!(rt;
        open_and_hand_in(&mut trial, 63, 1001).err(),
        Some(Refusal::WeightTooHigh)
    );
    assert_eq!(rt; open_and_hand_in(&mut trial, 63, 1000).err(), None);
    assert_eq!(rt; open_and_hand_in(&mut trial, 63, 1000).err(), None);
}
