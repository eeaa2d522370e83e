// Reads a sheet of grid places and a record from standard input, carries the record out, and prints what it answers. Where there
// is no record it makes the base call alone. An argument says how many times it does so, each time from the sheet on.
#![tactic(auto)]

use job::open;
use mesh::{MAX_TRIANGLES, MAX_VERTICES};
use place::{Grid, word_at};
use std::io::Read;
use std::{env, io};
use stores::{ChainStore, ChainTriangle, ChainVertex};

const INPUT_LIMIT: u64 = 2_000_000;

fn main(rt: HostRuntime) -> io::Result<()> {
    let times = env::args(&rt)?
        .nth(1)
        .and_then(|word| word.parse::<u32>().ok())
        .unwrap_or(1);
    let mut input = Vec::new(rt.alloc());
    rt.stdin().take(INPUT_LIMIT).read_to_end(&mut input)?;
    let size = word_at(&input, 0) as usize + 4;
    let sheet = input.get(..size).unwrap_or(&[]);
    let record = input.get(size..).unwrap_or(&[]);
    let mut triangles = [ChainTriangle::UNUSED; MAX_TRIANGLES as usize];
    let mut vertices = [ChainVertex::UNUSED; MAX_VERTICES as usize];
    let mut table = Vec::new(rt.alloc());
    table.resize(16 * (MAX_VERTICES + MAX_TRIANGLES) as usize, 0u32)?;
    let mut answer = None;
    for _ in 0..times {
        let mut store = ChainStore::<Grid>::new(&mut triangles, &mut vertices);
        let Ok(mut job) = open().base(&mut store, sheet) else {
            return println!(rt; "no base");
        };
        if !record.is_empty() {
            answer = Some(job.split(&mut store, &mut table, record));
        }
    }
    match answer {
        Some(Ok(told)) => println!(rt; "SPLIT {} {} {}", told.vertices, told.edges, told.triangles),
        Some(Err(fault)) => println!(rt; "REFUSED {} {}", fault.number(), fault.spot()),
        None => println!(rt; "no record"),
    }
}
