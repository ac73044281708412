#![tactic(auto)]

// Recall orders: which of several dispatches (transactions) is recalled first where their waits
// form a cycle.
pub mod order;
pub mod pair;
pub mod single;
