#![tactic(auto)]

// A console over a book: an input in pieces, and its answers in printed bytes.
pub mod console;
pub mod limits;
pub mod numbered_line;
pub mod serving;
pub mod theorems;
