#![tactic(auto)]

// A table, an order and a detection that are chosen at run time, by their names.
pub mod any_order;
pub mod any_table;
pub mod arguments;
pub mod setting;
pub mod single_order;
pub mod unknown_name;
