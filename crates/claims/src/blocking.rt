// Which claim blocks which.
ghost use Rattle.std.specs.Prelude.{◌≡◌};
ghost use Rattle.model.specs.Claims.{blocks as blocking};
ghost use Rattle.model.specs.Search.{any};

use model::state::Claim;
use uses::table::UseTable;

// Does claim `b` block claim `c`, which stands later (are the lock requests incompatible)?
pub fn blocks<T: UseTable>(table: &T, b: &Claim, c: &Claim) -> bool
    ensures { result ≡ blocking (T.meaning table.now) b.now c.now }
{
    b.section == c.section && b.dispatch != c.dispatch && table.conflicts(b.mode, c.mode)
}

// Does some earlier claim block the claim?
pub fn is_blocked<T: UseTable>(table: &T, earlier: &[Claim], c: &Claim) -> bool
    ensures { result ≡ any (λ b. blocking (T.meaning table.now) b c.now) earlier.now }
{
    earlier.iter().any(|b| blocks(table, b, c))
}
