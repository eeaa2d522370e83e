// The lines that the program prints of a play.
use crate::answer::{Answer, Refusal};
use crate::verdict::Verdict;
use engine::Told;
use job::Report;
use std::io;
use survey::Counts;

pub fn print_base(rt: &HostRuntime, base: Counts, verdict: Verdict) -> io::Result<()> {
    println!(rt;
        "BASE {} {} {} {verdict}",
        base.vertices, base.edges, base.triangles
    )
}

// The counts of a split, or why the record is refused.
pub fn print_answer(
    rt: &HostRuntime,
    item: u32,
    answer: Answer,
    verdict: Verdict,
) -> io::Result<()> {
    match answer {
        Answer::Split(told) => {
            let Told {
                vertices,
                edges,
                triangles,
                forest_edges,
                trees,
            } = told;
            println!(rt;
                "SPLIT {item} {vertices} {edges} {triangles} {forest_edges} {trees} {verdict}"
            )
        }
        Answer::Refused(refusal) => {
            print_refusal(rt, item, refusal)?;
            println!(rt; " {verdict}")
        }
    }
}

fn print_refusal(rt: &HostRuntime, item: u32, refusal: Refusal) -> io::Result<()> {
    let Refusal {
        number,
        layer,
        spot,
    } = refusal;
    print!(rt; "REFUSED {item} {number} {layer} {spot}")
}

pub fn print_refused_base(rt: &HostRuntime, refusal: Refusal) -> io::Result<()> {
    print_refusal(rt, 0, refusal)?;
    println!(rt)?;
    println!(rt; "TOTAL 0 0 0")
}

// The accepted records, and their forest edges and trees.
pub fn print_total(rt: &HostRuntime, end: Report) -> io::Result<()> {
    println!(rt; "TOTAL {} {} {}", end.records, end.forest_edges, end.trees)
}
