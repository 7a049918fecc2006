// Runs a call script and writes the capture of its requests and completions: takes its lines from a reader, makes the calls as `replay`
// does, and writes the records of each.
#![tactic(auto)]

ghost use Rattle.std.specs.Prelude.{◌≡◌, ◌≤◌, length};
ghost use Rattle.session_calls.specs.Buffers.{SameBuffers};
ghost use Rattle.state_text.specs.Widths.{max_answer};

use call_answer::Ran;
use call_captures::MadeCall;
use call_script::Call;
use captured_calls::Setting;
use script_lines::{Found, Input};
use session::{LentBuffers, Session};
use std::io;
use std::io::{Read, Write};
use text::Text;

// ---- Lines

// How far a run has come.
#[derive(Clone, Copy)]
struct Progress {
    session: Session,
    setting: Setting,
}

fn started() -> Progress {
    Progress {
        session: session::new_session(),
        setting: call_captures::first_setting(),
    }
}

// Is the high region the longer one while the call is made?
fn high_is_longer(session: Session, call: Call) -> bool {
    let window = match call {
        Call::Window(window) => window,
        _ => session.lent.window,
    };
    window.low.len < window.high.len
}

// Makes a call. Of the two regions, which together have no more bytes than the low buffer, the longer one lies there, whichever it is; a
// call that moves them fills both anew.
fn run_call(
    text: &mut [u8],
    session: Session,
    call: Call,
    buffers: &mut LentBuffers<'_>,
) -> Ran<Session>
    requires { max_answer ≤ length text.old }
    ensures { SameBuffers buffers.old buffers.new }
{
    let mut text = Text {
        bytes: text,
        end: 0,
    };
    if high_is_longer(session, call) {
        let mut swapped = LentBuffers {
            log: buffers.log,
            collect: buffers.collect,
            data: buffers.data,
            low: buffers.high,
            high: buffers.low,
        };
        return session_calls::run_call(&mut text, session, call, &mut swapped);
    }
    session_calls::run_call(&mut text, session, call, buffers)
}

// Takes one line, which comes without its line feed, and writes the records of its call. A bad line has none, and ends the run: there
// is no progress behind it.
fn run_line<W: Write>(
    writer: &mut W,
    output: &mut [u8],
    text: &mut [u8],
    progress: Progress,
    line: &[u8],
    buffers: &mut LentBuffers<'_>,
) -> io::Result<Option<Progress>>
    requires { max_answer ≤ length text.old }
    ensures { SameBuffers buffers.old buffers.new }
{
    let Some(call) = call_script::read_call(line) else {
        return Ok(None);
    };
    let ran = run_call(text, progress.session, call, buffers);
    let made = MadeCall {
        before: progress.session,
        after: ran.left,
        call,
        rows: captured_calls::first_records(buffers.log, ran.records),
        collect: buffers.collect,
        data: buffers.data,
    };
    let end = call_captures::put_call(output, progress.setting, &made);
    writer.write_all(&output[..end])?;
    if !ran.good {
        return Ok(None);
    }
    Ok(Some(Progress {
        session: ran.left,
        setting: call_captures::setting_after(progress.setting, call),
    }))
}

// Takes the input to its end, or to a bad line. The loop is as in `raw_trbs`, and stands in both: a closure for what is done
// with a line would have to ask again what `run_line` asks.
fn run_input<R: Read, W: Write>(
    reader: &mut R,
    writer: &mut W,
    output: &mut [u8],
    text: &mut [u8],
    input: &mut Input<'_>,
    buffers: &mut LentBuffers<'_>,
) -> io::Result<()>
    requires { max_answer ≤ length text.old }
    ensures input { input.new.bytes.ghost_name ≡ input.old.bytes.ghost_name }
    ensures same { SameBuffers buffers.old buffers.new }
{
    let mut progress = started();
    // A proved loop has to end, and nothing says that the input does: so its turns are counted, up to a number that no run uses up.
    for _ in 0..u64::MAX {
        match script_lines::next_line(reader, input)? {
            Found::Line(from, end) => {
                let line = &input.bytes[from..end];
                let Some(next) = run_line(writer, output, text, progress, line, buffers)? else {
                    return Ok(());
                };
                progress = next;
            }
            Found::Piece => (),
            Found::End | Found::Unfinished => return Ok(()),
        }
    }
    Ok(())
}

// ---- Buffers

// The shorter one of two regions has at most half of guest memory.
const SHORTER_REGION: usize = call_script::MAX_WINDOW / 2;

// Bytes of the records of the longest row: two to a TRB, each with its two headers, and all of the device's data.
const OUTPUT: usize = 2 * 64 * trb::MAX_ROW + call_script::MAX_SCRIPT_DATA;

// Writes the capture of the call script that the reader gives.
// The buffers are made here as in `call_runner`: there is no heap, and a function cannot lend what lies in itself.
pub fn run<R: Read, W: Write>(reader: &mut R, writer: &mut W) -> io::Result<()> {
    let mut piece = input_bytes::zeros::<{ script_lines::PIECE }>();
    let mut input = Input::new(&mut piece);
    let mut output = input_bytes::zeros::<OUTPUT>();
    let mut text = input_bytes::zeros::<{ state_text::MAX_ANSWER }>();
    let mut log = call_runner::log_buffer();
    let mut collect = call_runner::collect_buffer();
    let mut longer = call_runner::region_buffer();
    let mut shorter = input_bytes::zeros::<SHORTER_REGION>();
    let mut data = call_runner::data_buffer();
    script_bytes::fill_device(&mut data);
    script_bytes::fill_guest(&mut longer, session::FIRST_BASE);
    // OUTPUT has room for a header: no refusal comes.
    let header = capture_writer::write_file_header(&mut output).unwrap_or(0);
    writer.write_all(&output[..header.min(OUTPUT)])?;
    let mut buffers = LentBuffers {
        log: &mut log,
        collect: &mut collect,
        data: &data,
        low: &mut longer,
        high: &mut shorter,
    };
    run_input(
        reader,
        writer,
        &mut output,
        &mut text,
        &mut input,
        &mut buffers,
    )
}
