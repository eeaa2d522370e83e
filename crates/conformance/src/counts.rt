// What came out of all records together.
ghost use Rattle.std.specs.Prelude.{◌≡◌};
ghost use Rattle.conformance.specs.Totals.{with_answer, with_verdict, counts_with};

use crate::answer::Answer;
use crate::verdict::Verdict;
use std::io;

// The accepted records, those refused by each number, and those that differ from the table.
#[derive(Drop)]
pub struct Counts {
    splits: u32,
    refusals: [u32; 35],
    differing: u32,
}

impl Counts {
    pub const NONE: Counts = Counts {
        splits: 0,
        refusals: [0; 35],
        differing: 0,
    };

    pub fn add(&mut self, answer: Answer, verdict: Verdict)
        ensures { self.new ≡ counts_with self.old answer verdict }
    {
        self.add_answer(answer);
        self.add_verdict(verdict);
    }

    fn add_answer(&mut self, answer: Answer)
        ensures { self.new ≡ with_answer self.old answer }
    {
        match answer {
            Answer::Split(_) => self.splits = self.splits.wrapping_add(1),
            Answer::Refused(refusal) => {
                // By index, since `get_mut` says nothing of what the array ends as.
                let number = refusal.number as usize;
                if number < self.refusals.len() {
                    self.refusals[number] = self.refusals[number].wrapping_add(1);
                }
            }
        }
    }

    fn add_verdict(&mut self, verdict: Verdict)
        ensures { self.new ≡ with_verdict self.old verdict }
    {
        if verdict != Verdict::Same {
            self.differing = self.differing.wrapping_add(1);
        }
    }

    pub fn print(&self, rt: &HostRuntime) -> io::Result<()> {
        println!(rt; "SPLITS {}", self.splits)?;
        for (number, count) in self.refusals.iter().enumerate() {
            if *count > 0 {
                println!(rt; "REFUSALS {number}: {count}")?;
            }
        }
        println!(rt; "DIFFERING {}", self.differing)
    }
}
