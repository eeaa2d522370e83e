// What a survey answered, as one piece of text. By hand, since the program's table has a format of its own.
use fault::Fault;
use std::fmt;
use survey::Counts;

#[derive(Clone, Copy)]
pub struct Outcome(pub Result<Counts, Fault>);

impl fmt::Display for Outcome {
    fn fmt<W: fmt::Write>(&self, f: &mut fmt::Formatter<W>) -> fmt::Result {
        match self.0 {
            Ok(counts) => write!(
                f,
                "{} {} {} {}",
                counts.vertices, counts.edges, counts.triangles, counts.euler
            ),
            Err(fault) => {
                let layer = u8::from(fault.layer());
                write!(f, "refused {} {layer} {}", fault.number(), fault.spot())
            }
        }
    }
}
