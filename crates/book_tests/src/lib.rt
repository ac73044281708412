#![tactic(auto)]

// What a person would try on the book and on the console.
#[cfg(test)]
mod cycles_of_waits;
#[cfg(test)]
mod questions;
#[cfg(test)]
mod refusals;
#[cfg(test)]
mod room;
#[cfg(test)]
mod servings;
#[cfg(test)]
mod sessions;
pub mod setting;
#[cfg(test)]
mod trial;
