// Faults, as they pass up to the console.
ghost use Rattle.std.specs.Prelude.{◌≡◌, Err, Some};
ghost use Rattle.protocol.specs.Faults.{field, layer as layer_of, fault_number, fault_place, fault_layer};
ghost use Rattle.protocol.specs.Words.{words, reply_to};
ghost use Rattle.protocol.specs.declared.fault.Fault.TheVariants.{Refused};

use book::answer::Refusal;
use std::error::Error;
use std::fmt;

/// Where a fault was found.
#[derive(Clone, Copy, Debug, PartialEq, Eq)]
pub enum Layer {
    /// In the form of the line.
    Line,
    /// By the use table.
    UseTable,
    /// By the book.
    Book,
}

/// Why a line was not carried out.
#[derive(Clone, Copy, Debug, PartialEq, Eq)]
pub enum Fault {
    /// The line is number 1000000.
    TooManyLines,
    /// The line has over 32 bytes.
    TooLong,
    /// No call letter stands first.
    NoLetter,
    /// No correct line goes on at the place, a byte of the line, from 1.
    WrongForm { place: u8 },
    /// The call of the line was refused.
    Refused(Refusal),
    /// A fault of a program's own, told by its numbers. Nothing here makes one.
    Numbered { layer: Layer, number: u8, place: u8 },
}

impl Fault {
    /// Its number: 1 to 10 for a refusal, 41 to 44 for a line, any for a program's own.
    pub fn number(self) -> u8
        ensures { result ≡ fault_number self }
    {
        match self {
            Fault::TooLong => 41,
            Fault::NoLetter => 42,
            Fault::WrongForm { .. } => 43,
            Fault::TooManyLines => 44,
            Fault::Refused(refusal) => refusal.number(),
            Fault::Numbered { number, .. } => number,
        }
    }

    /// Where it is: of a line, the byte, from 1; of a refusal, the field, from 1.
    pub fn place(self) -> u8
        ensures { result ≡ fault_place self }
    {
        match self {
            Fault::TooManyLines | Fault::NoLetter => 1,
            Fault::TooLong => 33,
            Fault::WrongForm { place } | Fault::Numbered { place, .. } => place,
            Fault::Refused(refusal) => field_of(refusal),
        }
    }

    /// Where it was found.
    pub fn layer(self) -> Layer
        ensures { result ≡ fault_layer self }
    {
        match self {
            Fault::Refused(refusal) => refused_by(refusal),
            Fault::Numbered { layer, .. } => layer,
            _ => Layer::Line,
        }
    }
}

// The field that a refusal concerns, from 1.
fn field_of(refusal: Refusal) -> u8
    ensures { result ≡ field refusal }
{
    match refusal {
        Refusal::SectionTooHigh | Refusal::WeightTooHigh | Refusal::NoRoom => 2,
        Refusal::NotKnown => 3,
        _ => 1,
    }
}

// Who refused.
fn refused_by(refusal: Refusal) -> Layer
    ensures { result ≡ layer_of refusal }
{
    match refusal {
        Refusal::NotKnown => Layer::UseTable,
        _ => Layer::Book,
    }
}

impl From<Refusal> for Fault {
    ghost from_gives = { λ refusal fault. fault ≡ Refused refusal };

    fn from(refusal: Refusal) -> Fault {
        Self::Refused(refusal)
    }
}

impl fmt::Display for Fault {
    ghost output = { λ fault. Some (words (reply_to (Err fault))) };

    fn fmt<W: fmt::Write>(&self, f: &mut fmt::Formatter<W>) -> fmt::Result {
        match self.layer() {
            Layer::Line => write!(f, "fault {} at {}", self.number(), self.place()),
            Layer::UseTable | Layer::Book => write!(f, "refused {}", self.number()),
        }
    }
}

impl Error for Fault {}
