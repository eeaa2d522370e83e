// The kinds of place: three numbers of 16 bits on a grid, or three finite floats.
#![tactic(auto)]

mod float;
mod float_place;
mod grid;
mod kind;
mod sums;
mod words;

pub use float::FloatDisplacement;
pub use float_place::FloatPlace;
pub use grid::{Grid, GridDisplacement};
pub use kind::Place;
pub use sums::{float_refusals, float_sums, grid_sums};
pub use words::{byte_at, rest_of, three_words, word_at};
