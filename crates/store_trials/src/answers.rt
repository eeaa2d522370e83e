// The calls that a store is played through.
use job::{Running, open};
use mesh::{GrowingStore, ReadingSurface, Triangle};
use place::Place;
use std::alloc::{AllocError, Global};

// What the calls answered, as one list of numbers, which is printed; so an answer of none is a number, 4,294,967,295.
#[derive(Drop)]
pub struct Answers {
    pub numbers: Vec<u32>,
}

impl Answers {
    // A base, the questions, and then what the store says to changes that it may and may not make.
    pub fn of<P: Place, S: GrowingStore<Kind = P>>(
        heap: Global,
        store: &mut S,
        sheet: &[u8],
    ) -> anyhow::Result<Answers> {
        let mut answers = Answers {
            numbers: Vec::new(heap),
        };
        match open().base(store, sheet) {
            Ok(job) => answers.ask(&job, store)?,
            Err(refused) => answers.push(u32::from(refused.fault.number()))?,
        }
        answers.change(store)?;
        answers.list(store)?;
        Ok(answers)
    }

    fn push(&mut self, number: u32) -> Result<(), AllocError> {
        self.numbers.push(number)?;
        Ok(())
    }

    fn push_found(&mut self, number: Option<u32>) -> Result<(), AllocError> {
        self.push(number.unwrap_or(u32::MAX))
    }

    // The questions of vertices and edges that are there, and of some that are not.
    fn ask<S: ReadingSurface>(&mut self, job: &Running, store: &S) -> Result<(), AllocError> {
        self.push(job.vertex_count(store))?;
        self.push(job.triangle_count(store))?;
        for u in 0..5 {
            self.push_found(job.parent(store, u))?;
            self.push_found(job.follow_back(store, u))?;
            for v in 0..5 {
                self.push_found(job.side(store, u, v))?;
            }
        }
        for number in 0..8 {
            let edge = job.edge(store, number);
            self.push_found(edge.map(|e| e.low))?;
            self.push_found(edge.map(|e| e.high))?;
        }
        Ok(())
    }

    // Additions until the store is full, and replacements, some of them not allowed: the numbers themselves are tried.
    fn change<P: Place, S: GrowingStore<Kind = P>>(
        &mut self,
        store: &mut S,
    ) -> Result<(), AllocError> {
        let place = P::origin();
        for parent in 3..7 {
            self.push(u32::from(store.add_vertex(place, parent)))?;
        }
        for c in 2..6 {
            self.push(u32::from(store.add_triangle(Triangle { a: 1, b: 2, c })))?;
        }
        for v in 0..7 {
            self.push(u32::from(store.replace_corner(4, 2, v)))?;
            self.push(u32::from(store.replace_corner(0, 3, v)))?;
            self.push(u32::from(store.replace_place(v, place)))?;
            self.push_found(store.side(v, 1))?;
            self.push_found(store.side(2, v))?;
        }
        Ok(())
    }

    // The corners of the triangles.
    fn list<S: ReadingSurface>(&mut self, store: &S) -> Result<(), AllocError> {
        for Triangle { a, b, c } in store.triangles() {
            self.push(a)?;
            self.push(b)?;
            self.push(c)?;
        }
        Ok(())
    }
}
