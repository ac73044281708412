// The table of two uses (shared and exclusive locks).
ghost use Rattle.std.specs.Prelude.{◌≡◌, Some};
ghost use Rattle.std.specs.Fmt.{padded};
ghost use Rattle.uses.specs.Checked.{Decodes};
ghost use Rattle.uses.specs.TwoUses.{two_uses, known, code_of, name_of};
ghost use Rattle.std.proofs.Common.{rules};

use crate::table::{UnknownUse, UseTable};
use std::fmt;

/// A use of the table.
#[derive(Clone, Copy, Debug, PartialEq, Eq)]
pub enum Use {
    /// To look at a section (a shared lock).
    Look = 0,
    /// To move on a section (an exclusive lock).
    Move = 1,
}

/// The code of a look.
pub const LOOK: u32 = Use::Look as u32;
/// The code of a move.
pub const MOVE: u32 = Use::Move as u32;

impl From<Use> for u32 {
    ghost from_gives = { λ mode code. code ≡ code_of mode };

    fn from(mode: Use) -> u32 {
        mode as u32
    }
}

impl TryFrom<u32> for Use {
    type Error = UnknownUse;

    ghost try_from_gives = { Decodes code_of known };

    fn try_from(code: u32) -> Result<Self, UnknownUse> {
        match code {
            LOOK => Ok(Use::Look),
            MOVE => Ok(Use::Move),
            _ => Err(UnknownUse),
        }
    }
}

impl fmt::Display for Use {
    ghost output = { λ mode. Some (name_of mode) };

    ghost styled_output = { λ mode spec. Some (padded spec (name_of mode)) };

    fn fmt<W: fmt::Write>(&self, f: &mut fmt::Formatter<W>) -> fmt::Result {
        f.pad(match self {
            Use::Look => "look",
            Use::Move => "move",
        })
    }
}

/// Looks stand beside each other; a move stands alone, and covers a look.
// The questions match the codes: where they are read as values of `Use` first, a question that is
// asked by itself takes twice the time.
#[derive(Clone, Copy, Debug, Default)]
pub struct TwoUses;

impl UseTable for TwoUses {
    ghost meaning = { λ _. two_uses };

    ghost lawful = { Prim.search rules };

    fn knows(&self, mode: u32) -> bool {
        Use::try_from(mode).is_ok()
    }

    fn conflicts(&self, a: u32, b: u32) -> bool {
        matches!((a, b), (MOVE, LOOK | MOVE) | (LOOK, MOVE))
    }

    fn covers(&self, a: u32, b: u32) -> bool {
        matches!((a, b), (MOVE, LOOK | MOVE) | (LOOK, LOOK))
    }
}
