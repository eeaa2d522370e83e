// The pairs of stores that a case is played on.
use crate::counts::Counts;
use crate::head::Head;
use crate::play::play;
use crate::table::Table;
use mesh::Triangle;
use place::Place;
use stores::{ChainStore, ChainTriangle, ChainVertex, ListStore, VertexRecord};

pub fn play_lists<P: Place>(
    rt: &HostRuntime,
    table: &mut Table<'_>,
    head: Head,
    counts: &mut Counts,
) -> anyhow::Result<()> {
    let unused = Triangle { a: 0, b: 0, c: 0 };
    let mut triangles = vec![in rt.alloc(); unused; head.triangles]?;
    let mut vertices = vec![in rt.alloc(); VertexRecord::UNUSED; head.vertices]?;
    let mut own = ListStore::<P>::new(&mut triangles, &mut vertices);
    let mut triangles = vec![in rt.alloc(); unused; head.triangles]?;
    let mut vertices = vec![in rt.alloc(); VertexRecord::UNUSED; head.vertices]?;
    let mut second = ListStore::<P>::new(&mut triangles, &mut vertices);
    play(rt, table, head.records, &mut own, &mut second, counts)
}

pub fn play_chains<P: Place>(
    rt: &HostRuntime,
    table: &mut Table<'_>,
    head: Head,
    counts: &mut Counts,
) -> anyhow::Result<()> {
    let mut triangles = vec![in rt.alloc(); ChainTriangle::UNUSED; head.triangles]?;
    let mut vertices = vec![in rt.alloc(); ChainVertex::UNUSED; head.vertices]?;
    let mut own = ChainStore::<P>::new(&mut triangles, &mut vertices);
    let mut triangles = vec![in rt.alloc(); ChainTriangle::UNUSED; head.triangles]?;
    let mut vertices = vec![in rt.alloc(); ChainVertex::UNUSED; head.vertices]?;
    let mut second = ChainStore::<P>::new(&mut triangles, &mut vertices);
    play(rt, table, head.records, &mut own, &mut second, counts)
}
