// Plays the cases of a table on both stores, and prints of each record what comes out and whether that is what the table has: an
// independent decoder's answer, sheet and parents.
#![tactic(auto)]

mod answer;
mod counts;
mod head;
mod lines;
mod order;
mod pairs;
mod play;
mod table;
#[cfg(test)]
mod tests;
mod verdict;

use anyhow::Context;
use counts::Counts;
use head::Head;
use pairs::{play_chains, play_lists};
use place::{FloatPlace, Grid, Place};
use std::io::Read;
use table::Table;

const INPUT_LIMIT: u64 = 16_777_216;

// A case, once on list stores and once more on chain stores.
fn play_both<P: Place>(
    rt: &HostRuntime,
    table: &mut Table<'_>,
    case: u32,
    head: Head,
    counts: &mut Counts,
) -> anyhow::Result<()> {
    println!(rt; "CASE {case} LIST")?;
    let mut again = *table;
    play_lists::<P>(rt, &mut again, head, counts)?;
    println!(rt; "CASE {case} CHAIN")?;
    play_chains::<P>(rt, table, head, counts)
}

fn main(rt: HostRuntime) -> anyhow::Result<()> {
    let mut input = Vec::new(rt.alloc());
    rt.stdin().take(INPUT_LIMIT).read_to_end(&mut input)?;
    let mut table = Table { rest: &input };
    let mut counts = Counts::NONE;
    // By the number that is printed, which bounds how long an input can be.
    for case in 0..u32::MAX {
        if table.rest.is_empty() {
            println!(&rt; "CASES {case}")?;
            break;
        }
        let head = Head::of(table.item().context("a head is cut short")?);
        if head.is_of_floats {
            play_both::<FloatPlace>(&rt, &mut table, case, head, &mut counts)?;
        } else {
            play_both::<Grid>(&rt, &mut table, case, head, &mut counts)?;
        }
    }
    counts.print(&rt)?;
    Ok(())
}
