#![tactic(auto)]

// Tickets: for a program that must not be able to forget a dispatch.
pub mod ticket;
