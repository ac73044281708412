// What the book answers.
ghost use Rattle.std.specs.Prelude.{◌≡◌, Ok, Some};
ghost use Rattle.model.specs.Calls.{answer_refused};
ghost use Rattle.book.specs.Answer.{answer_of, number, answer_words, reason_words, says_granted};
ghost use Rattle.book.specs.declared.answer.Refusal.TheVariants.{NotKnown};

use model::state::Condition;
use std::error::Error;
use std::fmt;
use uses::table::UnknownUse;

/// The answer to a call that is not refused.
#[derive(Clone, Copy, Debug, PartialEq, Eq)]
pub enum Answer {
    /// done
    Ok,
    /// the claim is held
    Granted,
    /// an earlier claim of the dispatch covers the use
    Covered,
    /// the claim waits
    Waits,
    /// the claimant was recalled
    Recalled,
}

impl Answer {
    /// The word of the answer, as it is printed.
    pub fn name(self) -> &'static str
        ensures { result.now ≡ answer_words (answer_of (Ok self)) }
    {
        match self {
            Answer::Ok => "ok",
            Answer::Granted => "granted",
            Answer::Covered => "covered",
            Answer::Waits => "waits",
            Answer::Recalled => "recalled",
        }
    }

    /// Does a claimant have what it claimed: is the claim granted, or covered?
    pub fn is_granted(self) -> bool
        ensures { result ≡ says_granted self }
    {
        matches!(self, Answer::Granted | Answer::Covered)
    }
}

impl fmt::Display for Answer {
    ghost output = { λ answer. Some (answer_words (answer_of (Ok answer))) };

    fn fmt<W: fmt::Write>(&self, f: &mut fmt::Formatter<W>) -> fmt::Result {
        f.write_str(self.name())
    }
}

/// Why a call was refused, in the order of the checks, numbered from 1. The first that applies is
/// the answer.
#[derive(Clone, Copy, Debug, PartialEq, Eq)]
pub enum Refusal {
    /// the dispatch number is above 63
    NumberTooHigh,
    /// the section is above 1023
    SectionTooHigh,
    /// the use is unknown
    NotKnown,
    /// the weight is above 1000
    WeightTooHigh,
    /// the dispatch is recalled
    IsRecalled,
    /// the dispatch is open
    IsOpen,
    /// the dispatch is free
    IsFree,
    /// the dispatch waits
    IsWaiting,
    /// 512 claims stand and the new one is not covered
    NoRoom,
    /// the dispatch is not recalled
    NotRecalled,
}

impl Refusal {
    /// The number of the refusal, 1 to 10.
    pub fn number(self) -> u8
        ensures { result ≡ number self }
    {
        self as u8 + 1
    }

    /// The reason in words, for a person.
    pub fn reason(self) -> &'static str
        ensures { result.now ≡ reason_words self }
    {
        match self {
            Refusal::NumberTooHigh => "the dispatch number is above 63",
            Refusal::SectionTooHigh => "the section is above 1023",
            Refusal::NotKnown => "the use is unknown",
            Refusal::WeightTooHigh => "the weight is above 1000",
            Refusal::IsRecalled => "the dispatch is recalled",
            Refusal::IsOpen => "the dispatch is open",
            Refusal::IsFree => "the dispatch is free",
            Refusal::IsWaiting => "the dispatch waits",
            Refusal::NoRoom => "512 claims stand",
            Refusal::NotRecalled => "the dispatch is not recalled",
        }
    }
}

impl fmt::Display for Refusal {
    ghost output = { λ refusal. Some (answer_words (answer_refused (number refusal))) };

    fn fmt<W: fmt::Write>(&self, f: &mut fmt::Formatter<W>) -> fmt::Result {
        write!(f, "refused {}", self.number())
    }
}

impl Error for Refusal {}

impl From<UnknownUse> for Refusal {
    ghost from_gives = { λ _ r. r ≡ NotKnown };

    fn from(_unknown: UnknownUse) -> Refusal {
        Refusal::NotKnown
    }
}

/// How a dispatch stands, and the section for which it waits, if it waits.
#[derive(Clone, Copy, Debug, PartialEq, Eq)]
pub struct Status {
    pub condition: Condition,
    pub waiting_section: Option<u16>,
}
