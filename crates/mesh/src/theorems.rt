// What is true of every mesh, each theorem the contract of a function.
ghost use Rattle.mesh.specs.Edges.{EdgesListed, EdgesCounted};
ghost use Rattle.mesh.specs.Follow.{FollowEnds};
ghost use Rattle.mesh.specs.Sides.{SidesFound};

// The edges rise, and are the pairs that are sides.
pub fn edges_listed()
    ensures { EdgesListed }
{}

// A closed mesh has three edges for two triangles.
pub fn edges_counted()
    ensures { EdgesCounted }
{}

// Following back comes to its end.
pub fn follow_ends()
    ensures { FollowEnds }
{}

// The side question's definition gives the lowest triangle with the side.
pub fn sides_found()
    ensures { SidesFound }
{}
