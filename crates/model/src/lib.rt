#![tactic(auto)]

// The book's abstract state, its calls, its runs, and what holds of every run.
//
// The definitions are in specs/. The code here is the records that the state is made of, the
// report, and functions that do nothing: the contract of each is a theorem.
pub mod call;
pub mod limits;
pub mod report;
pub mod state;
pub mod theorems;
