#![tactic(auto)]

// Lists in fixed memory. The contracts speak of a list by its entries, in order.
ghost use Rattle.std.specs.Prelude.{◌≡◌, ◌+◌, ◌<◌, ◌≤◌, ◌↔◌, IsTrue, Bool, [], ◌∷◌, ◌++◌, length, filter};
ghost use Rattle.std.specs.Fn.{FnReturnsAt};

use std::marker::Model;

/// At most N entries, in order of entering.
///
/// Nothing allocates, and N is part of the type, so that making a list cannot fail.
// The places behind the count are free. An `ArrayVec` of the library differs in two ways that the
// callers here need otherwise: its `new` asks for a `Default`, where this one takes any entry to
// fill with, and its `retain` promises a relation, where this one promises a `filter`.
#[derive(Drop)]
pub struct FixedList<X, const N: usize> {
    items: [X; N],
    count: usize,
}

impl<X, const N: usize> Model for FixedList<X, N> {
    ghost use Rattle.std.specs.Prelude.{◌≡◌, ◌≤◌, List, length, take};
    ghost use Rattle.std.specs.Coded.{coded_list};

    ghost Value = { List X };

    ghost coded = { coded_list X.code };

    ghost view = { λ l. take l.count l.items };

    ghost invariant = { λ l. (length l.items ≡ N) × (l.count ≤ N) };
}

impl<X: Copy, const N: usize> FixedList<X, N> {
    /// A list with no entry. Its memory is filled with the given one.
    pub fn new(fill: X) -> Self
        ensures { result ≡ [] }
    {
        FixedList {
            items: [fill; N],
            count: 0,
        }
    }

    /// How many entries there are.
    pub fn len(&self) -> usize
        ensures value { result ≡ length self.now }
        ensures fits { result ≤ N }
    {
        self.rows().len()
    }

    /// Is there no entry?
    pub fn is_empty(&self) -> bool
        ensures { IsTrue result ↔ (self.now ≡ []) }
    {
        self.rows().is_empty()
    }

    /// Is there no room for another entry?
    pub fn is_full(&self) -> bool
        ensures { IsTrue result ↔ (length self.now ≡ N) }
    {
        self.len() == N
    }

    /// The entries, in order.
    pub fn rows(&self) -> &[X]
        ensures value { result.now ≡ self.now }
        ensures fits { length result.now ≤ N }
    {
        &self.items[..self.count]
    }

    /// Puts an entry behind the others.
    pub fn push(&mut self, x: X)
        requires { length self.old < N }
        ensures { self.new ≡ self.old ++ x ∷ [] }
    {
        self.items[self.count] = x;
        self.count += 1;
    }

    /// Puts entries behind the others.
    pub fn extend_from_slice(&mut self, more: &[X])
        requires { length self.old + length more.now ≤ N }
        ensures { self.new ≡ self.old ++ more.now }
    {
        let start = self.count;
        let end = start + more.len();
        let items = &mut self.items[..];
        items[start..end].copy_from_slice(more);
        self.count = end;
    }

    /// Keeps the entries that pass the test, in order, and drops the others (a filter in place).
    // The array is written while it is read, so no iterator can go over it: the places read and
    // written are counted here.
    pub fn retain<F: Fn(&X) -> bool>(&mut self, test: F)
        requires { F.IsAlwaysCallable test }
        ensures { (passes : X → Bool)
            → ((x : X) (answer : Bool) → FnReturnsAt F.Fn test x answer → answer ≡ passes x)
            → self.new ≡ filter passes self.old }
    {
        let mut remaining = 0;
        for i in 0..self.count {
            let x = self.items[i];
            if test(&x) {
                self.items[remaining] = x;
                remaining += 1;
            }
        }
        self.count = remaining;
    }
}
