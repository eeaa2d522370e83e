// The split of a closed mesh by a forest of marked edges: what it is, and what is true of every split.
#![tactic(auto)]

mod theorems;

pub use theorems::{
    closing_meant, corners_renumbered, follows_back, forest_meant, labels_meant, never_early,
    places_moved, polygon_filled, positions_numbered, root_lowest, split_cases, split_keeps,
    tree_counted, trees_ordered, trees_summed, triangles_follow, twice_added,
};
