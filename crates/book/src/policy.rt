// What a line chooses for its book.

/// The use table (the lock modes) and the recall order (who is the deadlock victim).
#[derive(Drop)]
pub struct Policy<T, O> {
    pub(crate) table: T,
    pub(crate) order: O,
}
