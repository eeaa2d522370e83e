// A split carried out on a store, stage by stage, in a table of numbers that is lent to it.
#![tactic(auto)]

mod call;
mod clashes;
mod codes;
mod corners;
mod edges;
mod index;
mod joining;
mod loops;
mod marking;
mod marks;
mod numbers;
mod places;
mod planting;
mod polygons;
mod record_checks;
mod sewing;
mod splitting;
#[cfg(test)]
mod tests;
mod told;
mod trees;
mod triples;
mod writing;

pub use splitting::split;
pub use told::Told;
