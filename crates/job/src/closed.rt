// A job that has ended.
ghost use Rattle.std.specs.Prelude.{◌≡◌};

// The counts of the last mesh, the accepted records, and their forest edges and trees.
#[derive(Clone, Copy, PartialEq, Eq, Debug)]
pub struct Report {
    pub vertices: u32,
    pub edges: u32,
    pub triangles: u32,
    pub records: u32,
    pub forest_edges: u32,
    pub trees: u32,
}

#[derive(Drop)]
pub struct Closed {
    pub(crate) report: Report,
}

impl Closed {
    pub fn report(&self) -> Report
        ensures { result ≡ self.now.report }
    {
        self.report
    }
}
