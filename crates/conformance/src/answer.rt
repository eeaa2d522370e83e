// What comes out of a record.
ghost use Rattle.std.specs.Prelude.{◌≡◌};

use engine::Told;
use fault::Fault;
use place::word_at;

// A refusal as it is told.
#[derive(Clone, Copy, PartialEq, Eq, Debug)]
pub struct Refusal {
    pub number: u32,
    pub layer: u32,
    pub spot: u32,
}

#[derive(Clone, Copy, PartialEq, Eq, Debug)]
pub enum Answer {
    Split(Told),
    Refused(Refusal),
}

impl From<Fault> for Refusal {
    ghost use Rattle.conformance.specs.Answers.{refusal};

    ghost from_gives = { λ fault told. told ≡ refusal fault };

    fn from(fault: Fault) -> Refusal {
        Refusal {
            number: u32::from(fault.number()),
            layer: u32::from(u8::from(fault.layer())),
            spot: fault.spot(),
        }
    }
}

impl From<Result<Told, Fault>> for Answer {
    ghost use Rattle.conformance.specs.Answers.{answer};

    ghost from_gives = { λ outcome told. told ≡ answer outcome };

    fn from(outcome: Result<Told, Fault>) -> Answer {
        match outcome {
            Ok(told) => Answer::Split(told),
            Err(fault) => Answer::Refused(Refusal::from(fault)),
        }
    }
}

impl Answer {
    ghost use Rattle.conformance.specs.Answers.{answer_in};

    // An item of three numbers is a refusal, one of five the counts of a split.
    pub fn of(item: &[u8]) -> Answer
        ensures { result ≡ answer_in item.now }
    {
        if item.len() == 16 {
            Answer::Refused(Refusal {
                number: word_at(item, 4),
                layer: word_at(item, 8),
                spot: word_at(item, 12),
            })
        } else {
            Answer::Split(Told {
                vertices: word_at(item, 4),
                edges: word_at(item, 8),
                triangles: word_at(item, 12),
                forest_edges: word_at(item, 16),
                trees: word_at(item, 20),
            })
        }
    }

    pub fn is_split(&self) -> bool {
        matches!(self, Answer::Split(_))
    }
}
