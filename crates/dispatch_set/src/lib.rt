#![tactic(auto)]

// A set of dispatch numbers in one machine word. The contracts speak of it by membership
// (`contains`), and of its numbers in order as a list (`numbers_in`).
ghost use Rattle.std.specs.Prelude.{◌≡◌, ℕ, ◌<◌, true, false, not, ◌&&◌, ◌||◌, ◌==◌, length, IsNone, IfSome, ◌↔◌, Some};
ghost use Rattle.std.specs.Fmt.{WritesOnOk};
ghost use Rattle.std.specs.List.{flat_map};
ghost use Rattle.dispatch_set.specs.DispatchSet.{contains, numbers_in, IsLeast, other_text};

pub mod numbers;

use numbers::Numbers;
use std::fmt;

/// Every number in a set is below this.
pub const LIMIT: u8 = 64;

/// A set of numbers below [`LIMIT`], in one machine word: it is copied and compared as it is, and
/// nothing allocates.
#[derive(Clone, Copy, PartialEq, Eq)]
pub struct DispatchSet {
    bits: u64,
}

#[tactic(auto, using(crate::proofs::Bits::bits), unfolding(crate::specs::DispatchSet::contains))]
impl DispatchSet {
    /// The empty set.
    pub fn none() -> DispatchSet
        ensures { contains result ≡ (λ k. false) }
    {
        DispatchSet { bits: 0 }
    }

    /// Is the number in the set? No set has a number from [`LIMIT`] on.
    pub fn contains(self, k: u8) -> bool
        ensures { result ≡ contains self k }
    {
        k < LIMIT && (self.bits >> k) % 2 == 1
    }

    /// Is no number in the set?
    pub fn is_empty(self) -> bool
        ensures none { result ≡ true → contains self ≡ (λ k. false) }
        ensures some { result ≡ false → (k : ℕ) × (contains self k ≡ true) }
    {
        self.bits == 0
    }

    /// How many numbers are in the set.
    pub fn len(self) -> u32
        ensures { result ≡ length (numbers_in self) }
    {
        self.bits.count_ones()
    }

    /// The least number in the set, if there is one.
    pub fn first(self) -> Option<u8>
        ensures none { IsNone result ↔ (contains self ≡ (λ k. false)) }
        ensures least { IfSome result (IsLeast self) }
    {
        if self.bits > 0 {
            Some(self.bits.trailing_zeros() as u8)
        } else {
            None
        }
    }

    /// Puts the number into the set.
    // The numbers come as the u8 of an entry or of a row, here and in the crates above; a type for
    // numbers below 64 would only be wrapped and unwrapped at each call.
    pub fn insert(&mut self, k: u8)
        requires { k < LIMIT }
        ensures { contains self.new ≡ (λ j. (j == k) || contains self.old j) }
    {
        self.bits |= 1 << k;
    }

    /// Takes the number out of the set.
    pub fn remove(&mut self, k: u8)
        requires { k < LIMIT }
        ensures { contains self.new ≡ (λ j. not (j == k) && contains self.old j) }
    {
        self.bits &= !(1 << k);
    }

    /// The numbers that are in either set.
    pub fn union(self, other: DispatchSet) -> DispatchSet
        ensures { contains result ≡ (λ j. contains self j || contains other j) }
    {
        DispatchSet {
            bits: self.bits | other.bits,
        }
    }

    /// The numbers in the set, in ascending order.
    pub fn iter(self) -> Numbers
        ensures { result ≡ numbers_in self }
    {
        Numbers { left: self }
    }
}

// Writes each number behind a comma and a space.
fn write_others<W: fmt::Write>(numbers: Numbers, f: &mut fmt::Formatter<W>) -> fmt::Result
    ensures { WritesOnOk W.write_str_gives f.old result (flat_map other_text numbers) f.new }
{
    for k in numbers {
        write!(f, ", {k}")?;
    }
    Ok(())
}

/// The numbers in braces, in ascending order: `{1, 5, 63}`.
impl fmt::Display for DispatchSet {
    ghost use Rattle.dispatch_set.specs.DispatchSet.{set_text};

    ghost output = { λ s. Some (set_text s) };

    fn fmt<W: fmt::Write>(&self, f: &mut fmt::Formatter<W>) -> fmt::Result {
        let mut numbers = self.iter();
        f.write_str("{")?;
        if let Some(first) = numbers.next() {
            write!(f, "{first}")?;
        }
        write_others(numbers, f)?;
        f.write_str("}")
    }
}

/// `{:?}` writes what `{}` writes.
impl fmt::Debug for DispatchSet {
    fn fmt<W: fmt::Write>(&self, f: &mut fmt::Formatter<W>) -> fmt::Result {
        f.debug_set().entries(self.iter()).finish()
    }
}
