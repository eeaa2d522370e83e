// What is true of every record of a kind, each theorem the contract of a function.
ghost use Rattle.record.specs.Theorems.{ReadsBack, OneToOne, WritesBack};

use place::Place;

// What the writer writes, the layout call accepts, and it reads as the parts that were written.
pub fn reads_back<P: Place>()
    ensures { ReadsBack P.Place.kind }
{}

// For one number of edges, different parts are written as different bytes.
pub fn one_to_one<P: Place>()
    ensures { OneToOne P.Place.kind }
{}

// What the layout call accepts is what the writer would write of the parts that are read.
pub fn writes_back<P: Place>()
    ensures { WritesBack P.Place.kind }
{}
