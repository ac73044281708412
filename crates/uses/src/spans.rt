// The table of spans: a use is a direction and a run of a section's fields.
ghost use Rattle.std.specs.Prelude.{◌≡◌, ◌<◌, ◌||◌, Some};
ghost use Rattle.std.specs.Result.{result_ok};
ghost use Rattle.uses.specs.declared.spans.Direction.TheVariants.{Works};
ghost use Rattle.uses.specs.Spans.{code_of, direction_of, span_of, direction_name, span_text};
ghost use Rattle.uses.specs.Spans.{takes, share_a_field, has_all_fields_of, same, travel_one_way};
ghost use Rattle.uses.specs.Spans.{spans_conflict, span_covers, spans, ExactCodes};
ghost use Rattle.uses.specs.SpanLaws.{spans_lawful};

use crate::table::{UnknownUse, UseTable};
use std::fmt;

/// Which way a span is travelled; `Works` is for maintenance, which stands alone.
#[derive(Clone, Copy, Debug, PartialEq, Eq)]
pub enum Direction {
    Up = 1,
    Down = 2,
    Works = 3,
}

impl Direction {
    // Both up or both down: such spans may share fields.
    fn travels_with(self, other: Direction) -> bool
        ensures { result ≡ travel_one_way self other }
    {
        matches!(
            (self, other),
            (Direction::Up, Direction::Up) | (Direction::Down, Direction::Down)
        )
    }

    // Works serves every direction, up and down only their own.
    fn serves(self, other: Direction) -> bool
        ensures { result ≡ (same self Works || same self other) }
    {
        self == Direction::Works || self == other
    }
}

impl TryFrom<u32> for Direction {
    type Error = UnknownUse;

    ghost try_from_gives = { λ number r. result_ok r ≡ direction_of number };

    fn try_from(number: u32) -> Result<Self, UnknownUse> {
        match number {
            1 => Ok(Direction::Up),
            2 => Ok(Direction::Down),
            3 => Ok(Direction::Works),
            _ => Err(UnknownUse),
        }
    }
}

impl fmt::Display for Direction {
    ghost output = { λ direction. Some (direction_name direction) };

    fn fmt<W: fmt::Write>(&self, f: &mut fmt::Formatter<W>) -> fmt::Result {
        f.write_str(match self {
            Direction::Up => "up",
            Direction::Down => "down",
            Direction::Works => "works",
        })
    }
}

/// A run of a section's fields, in one direction.
#[derive(Clone, Copy, Debug, PartialEq, Eq)]
pub struct Span {
    pub direction: Direction,
    /// The first field.
    pub from: u8,
    /// The first field behind the last one.
    pub to: u8,
}

impl Span {
    fn takes(self, field: u8) -> bool
        ensures { result ≡ takes self field }
    {
        self.from <= field && field < self.to
    }

    // If any field is shared, the first field of the span that starts later is.
    #[tactic(auto, using(crate::proofs::SpanFields::share_later))]
    fn shares_field(self, other: Span) -> bool
        ensures { result ≡ share_a_field self other }
    {
        let later = self.from.max(other.from);
        self.takes(later) && other.takes(later)
    }

    // A run of fields has all between its first and its last.
    #[tactic(auto, using(crate::proofs::SpanFields::has_first_and_last))]
    fn has_all_fields_of(self, other: Span) -> bool
        requires { other.from < other.to }
        ensures { result ≡ has_all_fields_of self other }
    {
        self.takes(other.from) && self.takes(other.to - 1)
    }

    fn conflicts_with(self, other: Span) -> bool
        ensures { result ≡ spans_conflict self other }
    {
        self.shares_field(other) && !self.direction.travels_with(other.direction)
    }

    fn covers(self, other: Span) -> bool
        requires { other.from < other.to }
        ensures { result ≡ span_covers self other }
    {
        self.has_all_fields_of(other) && self.direction.serves(other.direction)
    }
}

/// The use code of a span.
impl From<Span> for u32 {
    ghost from_gives = { λ span code. code ≡ code_of span };

    fn from(span: Span) -> u32 {
        span.direction as u32 * 65536 + span.from as u32 * 256 + span.to as u32
    }
}

/// The span of a use code; an error where the code is not that of a span with at least one field.
impl TryFrom<u32> for Span {
    type Error = UnknownUse;

    ghost try_from_gives = { λ mode r. result_ok r ≡ span_of mode };

    fn try_from(mode: u32) -> Result<Self, UnknownUse> {
        let direction = Direction::try_from(mode / 65536)?;
        let from = (mode / 256 % 256) as u8;
        let to = (mode % 256) as u8;
        if from < to {
            Ok(Span {
                direction,
                from,
                to,
            })
        } else {
            Err(UnknownUse)
        }
    }
}

impl fmt::Display for Span {
    ghost output = { λ span. Some (span_text span) };

    fn fmt<W: fmt::Write>(&self, f: &mut fmt::Formatter<W>) -> fmt::Result {
        let direction = self.direction;
        let from = self.from;
        let to = self.to;
        write!(f, "{direction} {from}-{to}")
    }
}

/// Uses by direction and fields: travel one way shares fields, works shares none.
#[derive(Clone, Copy, Debug, Default)]
pub struct Spans;

impl UseTable for Spans {
    ghost meaning = { λ _. spans };

    ghost lawful = { λ t. spans_lawful };

    fn knows(&self, mode: u32) -> bool {
        Span::try_from(mode).is_ok()
    }

    fn conflicts(&self, a: u32, b: u32) -> bool {
        matches!((Span::try_from(a), Span::try_from(b)), (Ok(a), Ok(b)) if a.conflicts_with(b))
    }

    fn covers(&self, a: u32, b: u32) -> bool {
        matches!((Span::try_from(a), Span::try_from(b)), (Ok(a), Ok(b)) if a.covers(b))
    }
}

/// Theorem: `Span::try_from` knows exactly the codes of spans with at least one field, and reads
/// each as the span that it is the code of.
#[tactic(auto, using(crate::proofs::SpanCodes::exact_codes))]
pub fn codes_are_exact()
    ensures { ExactCodes }
{}
