#![tactic(auto)]

// The console's lines: a line to a call or a fault, and a call's outcome to printed bytes.
// What each line comes through is inlined: a program with two kinds of book would call it, and look
// at each result once more.
pub mod fault;
mod field;
pub mod form;
pub mod outcome;
pub mod theorems;
