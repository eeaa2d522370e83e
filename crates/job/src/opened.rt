// A job that has no base yet.
ghost use Rattle.std.specs.Prelude.{◌≡◌, [], IfOk};
ghost use Rattle.mesh.specs.Growth.{SameRoom};
ghost use Rattle.runs.specs.Jobs.{base_mesh, base_answer};
ghost use Rattle.runs.specs.Calls.{state_of};
ghost use Rattle.runs.specs.Runs.{Run};
ghost use Rattle.job.specs.Answers.{job_of, base_told};

use crate::basing::take_base;
use crate::running::Running;
use fault::Fault;
use mesh::GrowingStore;
use place::Place;

#[derive(Drop)]
pub struct Opened {
    private: (),
}

// The job whose base was refused, still opened, and why.
#[derive(Drop)]
pub struct Refused {
    pub job: Opened,
    pub fault: Fault,
}

impl From<Refused> for Fault {
    ghost from_gives = { λ refused fault. fault ≡ refused.fault };

    fn from(refused: Refused) -> Fault {
        refused.fault
    }
}

// A new job. Give it a base before anything else.
pub fn open() -> Opened {
    Opened { private: () }
}

impl Opened {
    // Fills the empty store with the sheet's mesh and gives a running job, or hands the opened job back with the fault.
    // That the store's room stays is a fact of the store before and after, which no type keeps.
    pub fn base<P: Place, S: GrowingStore<Kind = P>>(
        self,
        store: &mut S,
        sheet: &[u8],
    ) -> Result<Running, Refused>
        ensures answer { base_told result ≡ base_answer P.Place.kind (S.GrowingStore.vertex_room store.old) (S.GrowingStore.triangle_room store.old) (S.ReadingSurface.mesh store.old) sheet.now }
        ensures mesh { S.ReadingSurface.mesh store.new ≡ base_mesh P.Place.kind (S.GrowingStore.vertex_room store.old) (S.GrowingStore.triangle_room store.old) (S.ReadingSurface.mesh store.old) sheet.now }
        ensures room { SameRoom S.GrowingStore.vertex_room S.GrowingStore.triangle_room store.old store.new }
        ensures run { IfOk result (λ r. Run P.Place.kind (S.GrowingStore.vertex_room store.old) (S.GrowingStore.triangle_room store.old) sheet.now [] (state_of (S.ReadingSurface.mesh store.new) (job_of r))) }
    {
        let totals = take_base(store, sheet).map_err(|fault| Refused { job: self, fault })?;
        Ok(Running::start(totals))
    }
}
