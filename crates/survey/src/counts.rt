// How many vertices, edges and triangles a mesh has, and vertices less edges plus triangles.
#[derive(Clone, Copy, PartialEq, Eq, Debug)]
pub struct Counts {
    pub vertices: u32,
    pub edges: u32,
    pub triangles: u32,
    pub euler: i32,
}
