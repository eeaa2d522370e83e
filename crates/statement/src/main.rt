// Reads a model from standard input, has a maker and a shop take its base and carry out its records, and prints both levels.
#![tactic(auto)]

mod comparison;
mod floats;
mod lines;
mod model;
mod request;
mod selection;
mod side;
#[cfg(test)]
mod tests;

use comparison::{compare_model, compare_with_floats};
use fault::Fault;
use job::Comparison;
use lines::{print_statement, print_usage};
use model::Model;
use place::{FloatPlace, Grid, Place, byte_at};
use request::Request;
use sheet::survey_sheet;
use std::io;
use std::io::Read;
use std::process::ExitCode;
use survey::Counts;

// A longer input is refused whole, so that no item is cut by the limit.
const INPUT_LIMIT: usize = 1_048_576;

fn has_floats(model: &Model<'_>) -> bool {
    byte_at(model.base, 5) == FloatPlace::KIND
}

fn survey_base(model: &Model<'_>) -> Result<Counts, Fault> {
    if has_floats(model) {
        survey_sheet::<FloatPlace>(model.base)
    } else {
        survey_sheet::<Grid>(model.base)
    }
}

// Both sides with places of the kind that the sheet tells, or the shop with floats.
fn compare_requested(
    rt: &HostRuntime,
    model: &Model<'_>,
    request: Request,
) -> io::Result<Option<Comparison>> {
    if has_floats(model) {
        compare_model::<FloatPlace>(rt, model, request.selection)
    } else if request.floats {
        compare_with_floats(rt, model, request.selection)
    } else {
        compare_model::<Grid>(rt, model, request.selection)
    }
}

fn main(rt: HostRuntime) -> io::Result<ExitCode> {
    let Some(request) = Request::read(&rt)? else {
        print_usage(&rt)?;
        return Ok(ExitCode::SUCCESS);
    };
    let mut input = Vec::new(rt.alloc());
    rt.stdin()
        .take(INPUT_LIMIT as u64 + 1)
        .read_to_end(&mut input)?;
    if input.len() > INPUT_LIMIT {
        eprintln!(&rt; "statement: the input is longer than {INPUT_LIMIT} bytes")?;
        return Ok(ExitCode::FAILURE);
    }
    let model = Model::read(rt.alloc(), &input)?;
    if let Some(comparison) = compare_requested(&rt, &model, request)? {
        print_statement(&rt, survey_base(&model), comparison)?;
    }
    Ok(ExitCode::SUCCESS)
}
