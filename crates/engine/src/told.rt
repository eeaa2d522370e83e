// What a split call answers.
// What an accepted split tells: the counts of the mesh as it is then, and the record's marked edges and trees.
#[derive(Clone, Copy, PartialEq, Eq, Debug)]
pub struct Told {
    pub vertices: u32,
    pub edges: u32,
    pub triangles: u32,
    pub forest_edges: u32,
    pub trees: u32,
}
