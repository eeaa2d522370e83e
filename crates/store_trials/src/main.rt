// Plays a list store and a chain store through the same calls, with grid and with float places, and compares what they answer.
#![tactic(auto)]

mod answers;

use answers::Answers;
use mesh::Triangle;
use place::{FloatPlace, Grid, Place};
use std::alloc::Global;
use std::fs;
use stores::{ChainStore, ChainTriangle, ChainVertex, ListStore, VertexRecord};

// The heap and the sheet go to both stores alike; each store has tables of its own records.
fn play_list<P: Place>(heap: Global, sheet: &[u8]) -> anyhow::Result<Answers> {
    let mut triangles = [Triangle { a: 0, b: 0, c: 0 }; 6];
    let mut vertices = [VertexRecord::UNUSED; 6];
    let mut list = ListStore::<P>::new(&mut triangles, &mut vertices);
    Answers::of(heap, &mut list, sheet)
}

fn play_chain<P: Place>(heap: Global, sheet: &[u8]) -> anyhow::Result<Answers> {
    let mut triangles = [ChainTriangle::UNUSED; 6];
    let mut vertices = [ChainVertex::UNUSED; 6];
    let mut chain = ChainStore::<P>::new(&mut triangles, &mut vertices);
    Answers::of(heap, &mut chain, sheet)
}

fn compare<P: Place>(rt: &HostRuntime, path: &str, kind: &str) -> anyhow::Result<()> {
    let sheet = fs::read(rt, path)?;
    let list = play_list::<P>(rt.alloc(), &sheet)?;
    let chain = play_chain::<P>(rt.alloc(), &sheet)?;
    let count = list.numbers.len();
    let same = list.numbers == chain.numbers;
    println!(rt; "{path} as {kind}: {count} answers, the same of both stores: {same}")?;
    println!(rt; "{:?}", list.numbers)?;
    Ok(())
}

fn main(rt: HostRuntime) -> anyhow::Result<()> {
    compare::<Grid>(&rt, "block.sheet", "grid")?;
    compare::<FloatPlace>(&rt, "block-floats.sheet", "floats")?;
    compare::<Grid>(&rt, "block-floats.sheet", "grid")
}
