#![tactic(auto)]

// The dispatch book (a lock manager): six calls and three questions, in fixed memory.
pub mod answer;
pub mod book;
mod deadlock;
mod open_list;
pub mod policy;
pub mod tables;
mod wakes;
