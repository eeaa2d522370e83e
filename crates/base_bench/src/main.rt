// Reads a sheet of grid places from standard input, makes it the base of a job on a chain store
// with room for any mesh, and prints the base's counts, so that the base call can be timed.
#![tactic(auto)]

use job::open;
use mesh::{MAX_TRIANGLES, MAX_VERTICES};
use place::Grid;
use std::io;
use std::io::Read;
use stores::{ChainStore, ChainTriangle, ChainVertex};

// No sheet is longer than 589,838 bytes. What lies behind the limit is left unread.
const SHEET_LIMIT: u64 = 800_000;

fn main(rt: HostRuntime) -> io::Result<()> {
    let mut sheet = Vec::new(rt.alloc());
    rt.stdin().take(SHEET_LIMIT).read_to_end(&mut sheet)?;
    let mut triangles = [ChainTriangle::UNUSED; MAX_TRIANGLES as usize];
    let mut vertices = [ChainVertex::UNUSED; MAX_VERTICES as usize];
    let mut store = ChainStore::<Grid>::new(&mut triangles, &mut vertices);
    match open().base(&mut store, &sheet) {
        Ok(job) => {
            let base = job.close().report();
            println!(rt; "BASE {} {} {}", base.vertices, base.edges, base.triangles)
        }
        Err(refused) => {
            let fault = refused.fault;
            println!(rt; "REFUSED {} {}", fault.number(), fault.spot())
        }
    }
}
