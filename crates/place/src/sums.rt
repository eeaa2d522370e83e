// Displacements worked out: each function does nothing, and what it ensures is a theorem.
ghost use Rattle.place.specs.Sums.{GridSums, FloatSums, FloatRefusals};

// What is accepted and refused at the edges of the grid.
pub fn grid_sums()
    ensures { GridSums }
{}

// How sums of floats are rounded.
pub fn float_sums()
    ensures { FloatSums }
{}

// When three floats are no place.
pub fn float_refusals()
    ensures { FloatRefusals }
{}
