// Compacts the log that it is given on standard input, and writes the records that are kept (R-9).
#![tactic(auto)]

ghost use Rattle.std.specs.Prelude.{◌<◌, ◌≤◌, length, take, OnOk};
ghost use Rattle.input_bytes.specs.Outputs.{WritesFor};
ghost use Rattle.log_print.specs.LogText.{refused_text};
ghost use Rattle.log_compactor.specs.Output.{max_log, output_of, Leads};

use std::io;
use std::io::{Read, Write};

// Bytes of the longest log that is taken.
const MAX_LOG: usize = 1048576;

// Room for the longest log and one byte, by which a longer one is noticed.
const BUFFER: usize = MAX_LOG + 1;

// Writes the line of a log that is refused: bytes and how many, since the buffer that the log lies in is no `Text`.
fn put_refused(buffer: &mut [u8]) -> usize
    requires { max_log < length buffer.old }
    ensures { Leads refused_text result buffer.new }
{
    let refused = b"refused 10\n";
    buffers::copy_into(buffer, 0, refused);
    refused.len()
}

// Leaves at the buffer's start what is written for the log in its first `read` bytes, and returns how many bytes that is. The buffer is
// passed whole, and no slice of the log: the line of a log that is refused may be longer than the log.
fn put_output(buffer: &mut [u8], read: usize) -> usize
    requires max_log_in_bounds { max_log < length buffer.old }
    requires read_in_bounds { read ≤ length buffer.old }
    ensures { Leads (output_of (take read buffer.old)) result buffer.new }
{
    if MAX_LOG < read {
        return put_refused(buffer);
    }
    match log_compact::compact(&mut buffer[..read]) {
        Ok(kept) => trb::RECORD_LENGTH * kept,
        Err(_) => put_refused(buffer),
    }
}

// Reads a log and writes what compacting it leaves.
fn compact_input<R: Read, W: Write>(reader: &mut R, writer: &mut W) -> io::Result<()>
    ensures { OnOk result (WritesFor output_of (R.remaining reader.old) (W.contents writer.old) (W.contents writer.new)) }
{
    let mut buffer = input_bytes::zeros::<BUFFER>();
    let read = input_bytes::read_full(reader, &mut buffer)?;
    let end = put_output(&mut buffer, read);
    writer.write_all(&buffer[..end])
}

fn main(rt: HostRuntime) -> io::Result<()> {
    compact_input(&mut rt.stdin(), &mut rt.stdout())
}
