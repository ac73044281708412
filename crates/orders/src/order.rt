// The interface between a line's recall order and the book.
ghost use Rattle.std.specs.Prelude.{Bool, ◌≡◌};
ghost use Rattle.orders.specs.declared.order.Summary.{Summary};
ghost use Rattle.orders.specs.Laws.{OrderLaws};

/// What a recall order may look at of an open dispatch.
#[derive(Clone, Copy, Debug, PartialEq, Eq)]
pub struct Summary {
    /// How many open dispatches were opened before it.
    pub standing: u32,
    /// What it gave as its weight at its opening.
    pub weight: u32,
    /// How many of its claims are held.
    pub held: u32,
}

/// A recall order (a deadlock victim policy).
pub trait RecallOrder {
    // What the order means: whether the first summary goes no later than the second.
    ghost meaning: { Self → Summary → Summary → Bool };

    /// Does the first go no later than the second?
    fn no_later(&self, a: Summary, b: Summary) -> bool
        ensures { result ≡ meaning self.now a b };

    ghost lawful: { (o : Self) → OrderLaws (meaning o) };
}
