// Items of an input, each with its length in front.
#![tactic(auto)]

mod item;

pub use item::{Item, next_item};
