// Reads a base sheet and records from standard input, applies one after another, and prints what comes of each.
#![tactic(auto)]

mod base;
mod lines;
mod play;
mod records;
#[cfg(test)]
mod tests;
mod workspace;

use lines::print_usage;
use play::play;
use std::io::{BufReader, LineWriter};
use std::{env, io};

fn main(rt: HostRuntime) -> io::Result<()> {
    if env::args(&rt)?.skip(1).count() > 0 {
        return print_usage(&rt);
    }
    let mut input = BufReader::new(rt.alloc(), rt.stdin())?;
    let mut output = LineWriter::new(rt.alloc(), io::writer(&rt))?;
    play(&mut input, &mut output)
}
