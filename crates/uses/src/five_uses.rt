// The table of five uses (the lock modes of multiple granularity).
ghost use Rattle.std.specs.Prelude.{◌≡◌, Some};
ghost use Rattle.std.specs.Fmt.{padded};
ghost use Rattle.uses.specs.Checked.{Decodes};
ghost use Rattle.uses.specs.FiveUses.{five_uses, known, code_of, name_of, CoverIsDominance};
ghost use Rattle.std.proofs.Common.{rules};

use crate::table::{UnknownUse, UseTable};
use std::fmt;

/// A use of the table.
#[derive(Clone, Copy, Debug, PartialEq, Eq)]
pub enum Use {
    /// To use parts of a section for looking (intention shared).
    IS = 0,
    /// To use parts of a section for moving (intention exclusive).
    IX = 1,
    /// To look at the whole section (shared).
    S = 2,
    /// To look at the whole section and move on parts of it (shared with intention exclusive).
    SIX = 3,
    /// To move on the whole section (exclusive).
    X = 4,
}

/// The code of intention shared.
pub const IS: u32 = Use::IS as u32;
/// The code of intention exclusive.
pub const IX: u32 = Use::IX as u32;
/// The code of shared.
pub const S: u32 = Use::S as u32;
/// The code of shared with intention exclusive.
pub const SIX: u32 = Use::SIX as u32;
/// The code of exclusive.
pub const X: u32 = Use::X as u32;

// Row a, column b, both in the order of the codes: a and b conflict.
const CONFLICTS: [[bool; 5]; 5] = [
    [false, false, false, false, true],
    [false, false, true, true, true],
    [false, true, false, true, true],
    [false, true, true, true, true],
    [true, true, true, true, true],
];

// Row a, column b, both in the order of the codes: a covers b.
const COVERS: [[bool; 5]; 5] = [
    [true, false, false, false, false],
    [true, true, false, false, false],
    [true, false, true, false, false],
    [true, true, true, true, false],
    [true, true, true, true, true],
];

impl Use {
    // Do the two uses conflict?
    fn conflicts_with(self, other: Use) -> bool
        ensures { result ≡ five_uses.conflict (code_of self) (code_of other) }
    {
        CONFLICTS[self as usize][other as usize]
    }

    // Does the use cover the other?
    fn covers(self, other: Use) -> bool
        ensures { result ≡ five_uses.cover (code_of self) (code_of other) }
    {
        COVERS[self as usize][other as usize]
    }
}

impl From<Use> for u32 {
    ghost from_gives = { λ mode code. code ≡ code_of mode };

    fn from(mode: Use) -> u32 {
        mode as u32
    }
}

impl TryFrom<u32> for Use {
    type Error = UnknownUse;

    ghost try_from_gives = { Decodes code_of known };

    fn try_from(code: u32) -> Result<Self, UnknownUse> {
        match code {
            IS => Ok(Use::IS),
            IX => Ok(Use::IX),
            S => Ok(Use::S),
            SIX => Ok(Use::SIX),
            X => Ok(Use::X),
            _ => Err(UnknownUse),
        }
    }
}

impl fmt::Display for Use {
    ghost output = { λ mode. Some (name_of mode) };

    ghost styled_output = { λ mode spec. Some (padded spec (name_of mode)) };

    fn fmt<W: fmt::Write>(&self, f: &mut fmt::Formatter<W>) -> fmt::Result {
        f.pad(match self {
            Use::IS => "IS",
            Use::IX => "IX",
            Use::S => "S",
            Use::SIX => "SIX",
            Use::X => "X",
        })
    }
}

/// The five uses of multiple granularity locking.
#[derive(Clone, Copy, Debug, Default)]
pub struct FiveUses;

impl UseTable for FiveUses {
    ghost meaning = { λ _. five_uses };

    ghost lawful = { Prim.search rules };

    fn knows(&self, mode: u32) -> bool {
        Use::try_from(mode).is_ok()
    }

    fn conflicts(&self, a: u32, b: u32) -> bool {
        matches!((Use::try_from(a), Use::try_from(b)), (Ok(a), Ok(b)) if a.conflicts_with(b))
    }

    fn covers(&self, a: u32, b: u32) -> bool {
        matches!((Use::try_from(a), Use::try_from(b)), (Ok(a), Ok(b)) if a.covers(b))
    }
}

/// Theorem: a use covers another exactly when every use that conflicts with the other conflicts
/// with it too.
pub fn cover_is_dominance()
    ensures { CoverIsDominance }
{}
