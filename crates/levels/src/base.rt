// The base: item 0 of the input.
ghost use Rattle.std.specs.Prelude.{IfOk};
ghost use Rattle.levels.specs.Bases.{BaseRead};

use crate::workspace::Workspace;
use fault::Fault;
use items::{Item, next_item};
use job::Running;
use std::io;
use std::io::Read;
use survey::Counts;

// A job with the sheet as its base, and the base's counts, or why it is refused; a sheet that is cut short or too long for the
// buffer has a wrong length.
pub fn read_base<R: Read>(
    input: &mut R,
    buffer: &mut [u8],
    workspace: &mut Workspace,
) -> io::Result<Result<(Running, Counts), Fault>>
    ensures { IfOk result (λ r. BaseRead workspace.old buffer.new workspace.new r) }
{
    match next_item(input, buffer)? {
        Item::Whole(size) => Ok(workspace.start(&buffer[0..size])),
        Item::Ended | Item::Broken => Ok(Err(Fault::SheetLength)),
    }
}
