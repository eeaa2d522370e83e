// Surveys each sheet of the input as grid, as floats, for a small store and as a C program would, and prints what each answers.
#![tactic(auto)]

mod outcome;

use items::{Item, next_item};
use mesh::Room;
use outcome::Outcome;
use place::{FloatPlace, Grid};
use sheet::{survey_sheet, survey_sheet_within};
use std::io;
use std::io::BufReader;
use survey_c::wz_survey_sheet;

const ITEM_LIMIT: usize = 16384;

// What the small store has room for.
const SMALL: Room = Room {
    vertices: 8,
    triangles: 12,
};

fn print_case(rt: &HostRuntime, case: u32, bytes: &[u8]) -> io::Result<()> {
    let grid = Outcome(survey_sheet::<Grid>(bytes));
    let float = Outcome(survey_sheet::<FloatPlace>(bytes));
    let small = Outcome(survey_sheet_within::<Grid>(bytes, SMALL));
    let mut counts = [0xAAu8; 16];
    let answer = wz_survey_sheet(bytes, &mut counts);
    println!(rt; "{case}: grid {grid}, floats {float}, small store {small}, C {answer} {counts:?}")
}

fn main(rt: HostRuntime) -> io::Result<()> {
    let mut input = BufReader::new(rt.alloc(), rt.stdin())?;
    let mut buffer = [0u8; ITEM_LIMIT];
    // By the number that is printed, which bounds how long an input can be.
    for case in 0..u32::MAX {
        match next_item(&mut input, &mut buffer)? {
            Item::Whole(size) => print_case(&rt, case, &buffer[4..size])?,
            Item::Ended => return println!(rt; "{case} cases"),
            Item::Broken => return println!(rt; "case {case} is cut short"),
        }
    }
    Ok(())
}
