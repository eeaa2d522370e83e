// The split call of a running job.
ghost use Rattle.std.specs.Prelude.{◌≡◌, ◌+◌, ◌*◌, ◌≤◌, length};
ghost use Rattle.mesh.specs.Growth.{SameRoom};
ghost use Rattle.runs.specs.Outcome.{numbers_with, split_answer, split_mesh_after, numbers_after, work_after};
ghost use Rattle.runs.specs.Calls.{state_of, offer};
ghost use Rattle.runs.specs.Runs.{GoesOn};
ghost use Rattle.engine.specs.Telling.{told_by};
ghost use Rattle.job.specs.Answers.{job_of};

use crate::running::Running;
use engine::Told;
use fault::Fault;
use mesh::GrowingStore;
use place::Place;

impl Running {
    // Carries the record out on the job's store and adds to the tallies, or refuses it and leaves store and job as they are.
    // The work table is all zeros afterwards.
    pub fn split<P: Place, S: GrowingStore<Kind = P>>(
        &mut self,
        store: &mut S,
        table: &mut [u32],
        bytes: &[u8],
    ) -> Result<Told, Fault>
        ensures answer { told_by result ≡ split_answer P.Place.kind (S.GrowingStore.vertex_room store.old) (S.GrowingStore.triangle_room store.old) (length table.old) (S.ReadingSurface.mesh store.old) (job_of self.old) bytes.now }
        ensures mesh { S.ReadingSurface.mesh store.new ≡ split_mesh_after P.Place.kind (S.GrowingStore.vertex_room store.old) (S.GrowingStore.triangle_room store.old) (length table.old) (S.ReadingSurface.mesh store.old) (job_of self.old) bytes.now }
        ensures numbers { job_of self.new ≡ numbers_after P.Place.kind (S.GrowingStore.vertex_room store.old) (S.GrowingStore.triangle_room store.old) (length table.old) (S.ReadingSurface.mesh store.old) (job_of self.old) bytes.now }
        ensures room { SameRoom S.GrowingStore.vertex_room S.GrowingStore.triangle_room store.old store.new }
        ensures table { table.new ≡ work_after table.old }
        ensures run { GoesOn P.Place.kind (S.GrowingStore.vertex_room store.old) (S.GrowingStore.triangle_room store.old) (state_of (S.ReadingSurface.mesh store.old) (job_of self.old)) (offer bytes.now (length table.old)) (state_of (S.ReadingSurface.mesh store.new) (job_of self.new)) }
    {
        let told = engine::split(store, self.totals(), table, bytes)?;
        self.add(told);
        Ok(told)
    }

    // One accepted record more, with its marked edges and trees.
    fn add(&mut self, told: Told)
        requires halved { 2 * (self.old.trees + told.trees) ≤ self.old.forest_edges + told.forest_edges }
        requires grown { self.old.records + 1 + (self.old.trees + told.trees) ≤ self.old.forest_edges + told.forest_edges }
        requires vertices_fit { self.old.base_vertices + (self.old.forest_edges + told.forest_edges) ≤ 16384 + (self.old.trees + told.trees) }
        requires triangles_fit { self.old.base_triangles + 2 * (self.old.forest_edges + told.forest_edges) ≤ 32768 + 2 * (self.old.trees + told.trees) }
        ensures { job_of self.new ≡ numbers_with (job_of self.old) told.forest_edges told.trees }
    {
        self.records += 1;
        self.forest_edges += told.forest_edges;
        self.trees += told.trees;
    }
}
