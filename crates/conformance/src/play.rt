// A case played on a pair of stores: a base, and records that are offered to its job.
ghost use Rattle.std.specs.Prelude.{◌≡◌, IfOk};
ghost use Rattle.runs.specs.Outcome.{split_answer};
ghost use Rattle.job.specs.Answers.{job_of};
ghost use Rattle.conformance.specs.Verdicts.{verdict_of};
ghost use Rattle.conformance.specs.Offers.{ordered, answer_by};

use crate::answer::{Answer, Refusal};
use crate::counts::Counts;
use crate::lines::{print_answer, print_base, print_refused_base, print_total};
use crate::table::{Mesh, Step, Table};
use crate::verdict::Verdict;
use anyhow::Context;
use job::{Running, open};
use mesh::{GrowingStore, ReadingSurface};
use place::Place;
use std::alloc::{AllocError, Global};

// What the work table holds before a call.
const LEFT_OVER: u32 = 7;

// No sheet is longer than an item of a table.
const ITEM_LIMIT: usize = 65_536;

fn compare<S: ReadingSurface>(store: &S, mesh: Mesh<'_>) -> Verdict
    ensures { result ≡ verdict_of S.Kind.Place.kind (S.ReadingSurface.mesh store.now) 65536 mesh.entry.sheet.now mesh.entry.parents.now }
{
    let mut buffer = [0; ITEM_LIMIT];
    Verdict::of(store, mesh, &mut buffer)
}

// Offers the record of a step, and tells what came out, and whether that and the store's mesh are what they have to be.
fn offer<P: Place, S: GrowingStore<Kind = P>>(
    heap: Global,
    job: &mut Running,
    store: &mut S,
    mesh: Mesh<'_>,
    step: Step<'_>,
) -> Result<(Answer, Verdict), AllocError>
    ensures { IfOk result (λ r. r.0 ≡ answer_by (split_answer P.Place.kind (S.GrowingStore.vertex_room store.old) (S.GrowingStore.triangle_room store.old) step.entry.order.table (ordered (S.ReadingSurface.mesh store.old) step.entry.order) (job_of job.old) step.entry.record.now)) }
{
    let order = step.order;
    store.replace_corner(order.triangle, order.corner, order.vertex);
    let mut table = vec![in heap; LEFT_OVER; order.table]?;
    let answer = Answer::from(job.split(store, &mut table, step.record));
    let verdict = if answer != step.answer {
        Verdict::Answer
    } else if table.iter().any(|number| *number != 0) {
        Verdict::WorkTable
    } else {
        compare(store, mesh)
    };
    Ok((answer, verdict))
}

// The base and the records of a case; none of these where the base is refused.
pub fn play<P: Place, S: GrowingStore<Kind = P>>(
    rt: &HostRuntime,
    table: &mut Table<'_>,
    records: u32,
    own: &mut S,
    second: &mut S,
    counts: &mut Counts,
) -> anyhow::Result<()> {
    let mut own_mesh = table.mesh().context("a base is cut short")?;
    let mut second_mesh = table.mesh().context("a second base is cut short")?;
    // A second store whose base is refused stays empty.
    let _ = open().base(second, second_mesh.sheet);
    let mut job = match open().base(own, own_mesh.sheet) {
        Ok(job) => job,
        Err(refused) => {
            print_refused_base(rt, Refusal::from(refused.fault))?;
            return Ok(());
        }
    };
    print_base(rt, job.survey(own)?, compare(own, own_mesh))?;
    for item in 1..=records {
        let step = table.step().context("a record is cut short")?;
        let (answer, verdict) = if step.order.is_on_second {
            second_mesh = step.mesh.unwrap_or(second_mesh);
            offer(rt.alloc(), &mut job, second, second_mesh, step)?
        } else {
            own_mesh = step.mesh.unwrap_or(own_mesh);
            offer(rt.alloc(), &mut job, own, own_mesh, step)?
        };
        counts.add(answer, verdict);
        print_answer(rt, item, answer, verdict)?;
    }
    print_total(rt, job.close().report())?;
    Ok(())
}
