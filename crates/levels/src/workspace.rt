// What a job works on: a store and a work table.
ghost use Rattle.std.specs.Prelude.{◌≡◌, [], length, IfOk};
ghost use Rattle.place.specs.Grids.{grid_kind};
ghost use Rattle.stores.specs.Chained.{chain_vertex_room, chain_triangle_room};
ghost use Rattle.runs.specs.Jobs.{base_mesh, base_answer};
ghost use Rattle.runs.specs.Outcome.{split_answer, split_mesh_after, numbers_after};
ghost use Rattle.runs.specs.Calls.{state_of, offer as offer_of};
ghost use Rattle.runs.specs.Runs.{empty_mesh, Run, GoesOn};
ghost use Rattle.engine.specs.Telling.{told_by};
ghost use Rattle.job.specs.Answers.{job_of};

use engine::Told;
use fault::Fault;
use job::{Running, open};
use place::Grid;
use stores::{ChainStore, ChainTriangle, ChainVertex};
use survey::Counts;

// What the store holds at most.
pub const VERTEX_CAPACITY: usize = 256;

pub const TRIANGLE_CAPACITY: usize = 512;

// Sixteen numbers for each vertex and each triangle that there is room for.
const TABLE_LENGTH: usize = 16 * (VERTEX_CAPACITY + TRIANGLE_CAPACITY);

#[derive(Drop)]
pub struct Workspace<'a> {
    store: ChainStore<'a, Grid>,
    table: [u32; TABLE_LENGTH],
    ghost vertex_room: { chain_vertex_room store ≡ 256 },
    ghost triangle_room: { chain_triangle_room store ≡ 512 },
    ghost table_length: { length table ≡ 12288 },
}

impl<'a> Workspace<'a> {
    ghost use Rattle.levels.specs.Workspaces.{mesh_in, started, counted_in};

    // The store is empty.
    pub fn new(
        triangles: &'a mut [ChainTriangle; TRIANGLE_CAPACITY],
        vertices: &'a mut [ChainVertex; VERTEX_CAPACITY],
    ) -> Self
        ensures { mesh_in result ≡ empty_mesh }
    {
        Workspace {
            store: ChainStore::<Grid>::new(triangles, vertices),
            table: [0; TABLE_LENGTH],
        }
    }

    // A job with the sheet as its base in the empty store, and the counts of the base, or why the sheet is refused.
    pub fn start(&mut self, sheet: &[u8]) -> Result<(Running, Counts), Fault>
        ensures answer { started result ≡ base_answer grid_kind 256 512 (mesh_in self.old) sheet.now }
        ensures mesh { mesh_in self.new ≡ base_mesh grid_kind 256 512 (mesh_in self.old) sheet.now }
        ensures counts { IfOk result (λ s. Ok s.1 ≡ counted_in self.new) }
        ensures run { IfOk result (λ s. Run grid_kind 256 512 sheet.now [] (state_of (mesh_in self.new) (job_of s.0))) }
    {
        let job = open().base(&mut self.store, sheet)?;
        // This refuses no base, since the base call surveyed it.
        let counts = job.survey(&self.store)?;
        Ok((job, counts))
    }

    // Carries the record out for the job, or refuses it and leaves job and store as they are.
    pub fn offer(&mut self, job: &mut Running, bytes: &[u8]) -> Result<Told, Fault>
        ensures answer { told_by result ≡ split_answer grid_kind 256 512 12288 (mesh_in self.old) (job_of job.old) bytes.now }
        ensures mesh { mesh_in self.new ≡ split_mesh_after grid_kind 256 512 12288 (mesh_in self.old) (job_of job.old) bytes.now }
        ensures numbers { job_of job.new ≡ numbers_after grid_kind 256 512 12288 (mesh_in self.old) (job_of job.old) bytes.now }
        ensures run { GoesOn grid_kind 256 512 (state_of (mesh_in self.old) (job_of job.old)) (offer_of bytes.now 12288) (state_of (mesh_in self.new) (job_of job.new)) }
    {
        job.split(&mut self.store, &mut self.table, bytes)
    }
}
