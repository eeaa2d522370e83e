// A side: who takes a base on a store of their own, and has records carried out on it.
ghost use Rattle.std.specs.Prelude.{◌≡◌, length, map, IfOk, IfSome, is_some, is_none};
ghost use Rattle.runs.specs.Jobs.{base_fault};
ghost use Rattle.runs.specs.Calls.{state_of};
ghost use Rattle.runs.specs.Runs.{after, Run};
ghost use Rattle.job.specs.Answers.{job_of};
ghost use Rattle.statement.specs.Sides.{offers};

use crate::lines::print_refusal;
use job::{Running, open};
use mesh::GrowingStore;
use place::Place;
use std::io;

#[derive(Clone, Copy, PartialEq, Eq, Debug)]
pub enum Side {
    Maker,
    Shop,
}

impl Side {
    pub fn name(self) -> &'static str {
        match self {
            Side::Maker => "maker",
            Side::Shop => "shop",
        }
    }
}

// What a side takes: a base sheet, and the records to be carried out on it.
#[derive(Clone, Copy)]
pub struct Part<'a> {
    pub sheet: &'a [u8],
    pub records: &'a [&'a [u8]],
}

// Carries out the records one after another. One that is refused is told, and changes nothing.
fn carry_out<P: Place, S: GrowingStore<Kind = P>>(
    rt: &HostRuntime,
    side: Side,
    job: &mut Running,
    store: &mut S,
    table: &mut [u32],
    records: &[&[u8]],
) -> io::Result<()>
    ensures { IfOk result (λ _. state_of (S.ReadingSurface.mesh store.new) (job_of job.new)
        ≡ after P.Place.kind (S.GrowingStore.vertex_room store.old) (S.GrowingStore.triangle_room store.old) (state_of (S.ReadingSurface.mesh store.old) (job_of job.old)) (offers (length table.old) (map (λ r. r.now) records.now))) }
{
    for (i, record) in records.iter().enumerate() {
        if let Err(fault) = job.split(store, table, record) {
            print_refusal(rt, side, i + 1, fault)?;
        }
    }
    Ok(())
}

// The job of a side that takes a sheet and has its records carried out; none, and the refusal told, if the sheet is refused.
pub fn play<P: Place, S: GrowingStore<Kind = P>>(
    rt: &HostRuntime,
    side: Side,
    store: &mut S,
    table: &mut [u32],
    part: &Part<'_>,
) -> io::Result<Option<Running>>
    ensures answer { IfOk result (λ o. is_some o ≡ is_none (base_fault P.Place.kind (S.GrowingStore.vertex_room store.old) (S.GrowingStore.triangle_room store.old) (S.ReadingSurface.mesh store.old) part.now.sheet.now)) }
    ensures run { IfOk result (λ o. IfSome o (λ job. Run P.Place.kind (S.GrowingStore.vertex_room store.old) (S.GrowingStore.triangle_room store.old) part.now.sheet.now (offers (length table.old) (map (λ r. r.now) part.now.records.now)) (state_of (S.ReadingSurface.mesh store.new) (job_of job)))) }
{
    match open().base(store, part.sheet) {
        Ok(mut job) => {
            carry_out(rt, side, &mut job, store, table, part.records)?;
            Ok(Some(job))
        }
        Err(refused) => {
            print_refusal(rt, side, 0, refused.fault)?;
            Ok(None)
        }
    }
}
