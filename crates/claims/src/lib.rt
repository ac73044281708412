#![tactic(auto)]

// The claim table (a lock table), and all that is read off the claims.
mod blocking;
pub mod claim_table;
mod cycles;
mod in_line;
