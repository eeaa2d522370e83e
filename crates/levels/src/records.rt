// The records: items 1, 2, .. of the input.
use crate::lines::Line;
use crate::workspace::Workspace;
use fault::Fault;
use items::{Item, next_item};
use job::Running;
use std::io;
use std::io::{Read, Write};

// Offers each record to the job, and tells what comes of it. A record that is cut short or too long for the buffer is the last.
pub fn play_records<R: Read, W: Write>(
    input: &mut R,
    output: &mut W,
    buffer: &mut [u8],
    workspace: &mut Workspace,
    job: &mut Running,
) -> io::Result<()> {
    // By the number that is printed, which bounds how long an input can be.
    for item in 1..u32::MAX {
        match next_item(input, buffer)? {
            Item::Whole(size) => {
                let line = match workspace.offer(job, &buffer[0..size]) {
                    Ok(told) => Line::Split(item, told),
                    Err(fault) => Line::Refused(item, fault),
                };
                writeln!(output, "{line}")?;
            }
            Item::Ended => break,
            Item::Broken => {
                return writeln!(output, "{}", Line::Refused(item, Fault::RecordLength));
            }
        }
    }
    Ok(())
}
