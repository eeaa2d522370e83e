// The lines that the program prints.
use crate::side::Side;
use fault::Fault;
use job::{Comparison, Level};
use std::io;
use survey::Counts;

pub fn print_usage(rt: &HostRuntime) -> io::Result<()> {
    println!(rt; "usage: statement [RECORDS] [floats] < MODEL")?;
    println!(rt;
        "Reads a model from standard input: a base sheet, then records; 1048576 bytes at most."
    )?;
    println!(rt;
        "The sheet's kind byte decides the kind of its places: floats if it is 2, else the grid."
    )?;
    println!(rt;
        "A maker takes the base on a chain store and carries out all records, a shop takes it on a"
    )?;
    println!(rt;
        "list store and carries out the first RECORDS of them, or the first half; with floats, it"
    )?;
    println!(rt;
        "keeps the grid's places as floats. A record that is refused is printed and changes"
    )?;
    println!(rt; "nothing; a base that is refused ends the program.")?;
    println!(rt;
        "Then prints what is counted in each mesh, what each side's tallies tell, and whether they"
    )?;
    println!(rt; "agree. Each store has room for 1024 vertices and 2048 triangles.")
}

pub fn print_refusal(rt: &HostRuntime, side: Side, item: usize, fault: Fault) -> io::Result<()> {
    let name = side.name();
    let layer = u8::from(fault.layer());
    println!(rt;
        "REFUSED {name} {item} {} {layer} {}: {fault}",
        fault.number(),
        fault.spot()
    )
}

fn print_counts(rt: &HostRuntime, name: &str, counts: Counts) -> io::Result<()> {
    print!(rt;
        "{name:<6} V {:>5}  E {:>5}  T {:>5}  V - E + T {:>3}",
        counts.vertices, counts.edges, counts.triangles, counts.euler
    )
}

// What a survey found, behind the name.
fn print_found(rt: &HostRuntime, name: &str, found: Result<Counts, Fault>) -> io::Result<()> {
    match found {
        Ok(counts) => print_counts(rt, name, counts),
        Err(fault) => print!(rt; "{name:<6} no closed mesh: {fault}"),
    }
}

fn print_level(rt: &HostRuntime, side: Side, level: Level) -> io::Result<()> {
    print_found(rt, side.name(), level.found)?;
    let told = level.told;
    println!(rt;
        "  records {:>3}  forest edges {:>4}  trees {:>3}",
        told.records, told.forest_edges, told.trees
    )
}

fn print_triangles(rt: &HostRuntime, side: Side, base: u32, level: Level) -> io::Result<()> {
    let name = side.name();
    let told = level.told;
    let count = level.found.map_or(0, |counts| counts.triangles);
    println!(rt;
        "{name:<6} triangles by tally {base} + 2 x {} - 2 x {} = {}, by count {count}",
        told.forest_edges, told.trees, told.triangles
    )
}

pub fn print_statement(
    rt: &HostRuntime,
    base: Result<Counts, Fault>,
    comparison: Comparison,
) -> io::Result<()> {
    let Comparison { first, second } = comparison;
    print_found(rt, "base", base)?;
    println!(rt; "")?;
    print_level(rt, Side::Maker, first)?;
    print_level(rt, Side::Shop, second)?;
    let triangles = base.map_or(0, |counts| counts.triangles);
    print_triangles(rt, Side::Maker, triangles, first)?;
    print_triangles(rt, Side::Shop, triangles, second)?;
    if first.balances() && second.balances() {
        println!(rt; "credit and charge balance")
    } else {
        println!(rt; "credit and charge do not balance")
    }
}
