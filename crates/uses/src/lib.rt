#![tactic(auto)]

// Use tables: which uses of a section conflict, and which covers which.
pub mod five_uses;
pub mod spans;
pub mod table;
pub mod two_uses;
