// Prints the log that it is given on standard input.
#![tactic(auto)]

ghost use Rattle.std.specs.Prelude.{OnOk};
ghost use Rattle.log_print.specs.LogText.{log_text};
ghost use Rattle.input_bytes.specs.Outputs.{WritesFor};

use std::io;
use std::io::{Read, Write};

// Reads a log and writes its text.
fn print_input<R: Read, W: Write>(reader: &mut R, writer: &mut W) -> io::Result<()>
    ensures { OnOk result (WritesFor log_text (R.remaining reader.old) (W.contents writer.old) (W.contents writer.new)) }
{
    // Room for the longest log that is printed and one byte, by which a longer one is noticed.
    let mut log = [0u8; trb::MAX_PRINTED_LOG + 1];
    let read = input_bytes::read_full(reader, &mut log)?;
    let mut text = [0u8; log_text::MAX_TEXT];
    let length = log_print::print_log(&log[..read], &mut text).unwrap_or(0);
    writer.write_all(&text[..length])
}

fn main(rt: HostRuntime) -> io::Result<()> {
    print_input(&mut rt.stdin(), &mut rt.stdout())
}
