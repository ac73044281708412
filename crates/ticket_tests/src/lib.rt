#![tactic(auto)]

// Tests of tickets: what no contract says, and what a person would try first.
#[cfg(test)]
mod handing_in;
#[cfg(test)]
mod opening;
#[cfg(test)]
mod trial;
