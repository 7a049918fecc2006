// Runs a call script: reads its lines and writes the answers.
#![tactic(auto)]

ghost use Rattle.std.specs.Prelude.{◌≡◌, ◌≤◌, length, IfOk};
ghost use Rattle.call_script.specs.Limits.{max_window, max_lent_log, max_lent_collect, max_script_data};
ghost use Rattle.session_calls.specs.Buffers.{SameBuffers};
ghost use Rattle.session_calls.specs.Answers.{state_in};
ghost use Rattle.state_text.specs.Widths.{max_answer};
ghost use Rattle.call_runner.specs.Turns.{started, ReadsOn, Turns, RunsInput};

use script_lines::{Input, Refilled};
use session::{LentBuffers, Session};
use std::io;
use std::io::{Read, Write};
use text::Text;

// ---- Lines

// How far a run has come: the lines taken, whether every one was good, and whether there may be more: the others are there either way.
#[derive(Clone, Copy)]
struct Progress {
    session: Session,
    lines: u64,
    good: bool,
    more: bool,
}

fn started() -> Progress
    ensures { result ≡ started }
{
    Progress {
        session: session::new_session(),
        lines: 0,
        good: true,
        more: true,
    }
}

// What stands ahead of a run behind the lines that it took: one line more where one is unfinished; whether the run is good, and whether
// there may be more. No enum of its four cases: a turn reads each of the three, and each would be a `match` over the four.
#[derive(Clone, Copy)]
struct Ahead {
    lines: usize,
    good: bool,
    more: bool,
}

impl From<Refilled> for Ahead {
    ghost use Rattle.std.specs.Prelude.{◌≡◌};
    ghost use Rattle.call_runner.specs.Turns.{ahead_of};

    ghost from_gives = { λ refilled ahead. ahead ≡ ahead_of refilled };

    fn from(refilled: Refilled) -> Ahead {
        match refilled {
            Refilled::Piece => Ahead {
                lines: 0,
                good: true,
                more: true,
            },
            Refilled::End => Ahead {
                lines: 0,
                good: true,
                more: false,
            },
            Refilled::Unfinished => Ahead {
                lines: 1,
                good: false,
                more: false,
            },
        }
    }
}

// Reads a further piece behind the bytes that were not taken, unless the run is not good any more, or there was no room for the text of all
// whole lines.
fn read_on<R: Read>(
    reader: &mut R,
    input: &mut Input<'_>,
    good: bool,
    room: bool,
) -> io::Result<Ahead>
    ensures same { input.new.bytes.ghost_name ≡ input.old.bytes.ghost_name }
    ensures reads { IfOk result (λ ahead. ReadsOn good room input.old ahead input.new (R.remaining reader.old) (R.remaining reader.new)) }
{
    if !good {
        return Ok(Ahead {
            lines: 0,
            good: false,
            more: false,
        });
    }
    if !room {
        return Ok(Ahead {
            lines: 0,
            good: true,
            more: true,
        });
    }
    let refilled = script_lines::refill(reader, input)?;
    Ok(Ahead::from(refilled))
}

// Takes the whole lines that are read, writes their text out, and reads on.
// How long the text's buffer is stays as a writer writes: a fact of the slice that was lent, which a text of any length does not say.
fn take_turn<R: Read, W: Write>(
    reader: &mut R,
    writer: &mut W,
    text: &mut Text<'_>,
    progress: Progress,
    input: &mut Input<'_>,
    buffers: &mut LentBuffers<'_>,
) -> io::Result<Progress>
    requires { max_answer ≤ length text.old.bytes.now }
    ensures turn { IfOk result (λ after. Turns buffers.old.«data».now (state_in progress.session buffers.old) input.old progress after text.new input.new (state_in after.session buffers.new) (R.remaining reader.old) (R.remaining reader.new) (W.contents writer.old) (W.contents writer.new)) }
    ensures text { text.new.bytes.ghost_name ≡ text.old.bytes.ghost_name }
    ensures size { length text.new.bytes.now ≡ length text.old.bytes.now }
    ensures input { input.new.bytes.ghost_name ≡ input.old.bytes.ghost_name }
    ensures same { SameBuffers buffers.old buffers.new }
{
    // The proof does not cover a field that is read while its struct is lent: so it is a variable first.
    let from = input.from;
    let taken = script_pieces::take_lines(
        text,
        progress.session,
        input.filled_bytes(),
        from,
        buffers,
    );
    script_lines::write_text(writer, text)?;
    let room = text.end <= text.bytes.len() - state_text::MAX_ANSWER;
    input.from = taken.next;
    let ahead = read_on(reader, input, taken.good, room)?;
    let lines = script_lines::lines_behind(progress.lines, taken.lines);
    Ok(Progress {
        session: taken.session,
        lines: script_lines::lines_behind(lines, ahead.lines),
        good: ahead.good,
        more: ahead.more,
    })
}

// Takes the input to its end, or to a bad line.
fn run_input<R: Read, W: Write>(
    reader: &mut R,
    writer: &mut W,
    text: &mut [u8],
    input: &mut [u8],
    buffers: &mut LentBuffers<'_>,
) -> io::Result<Progress>
    requires { max_answer ≤ length text.old }
    ensures run { IfOk result (λ ended. RunsInput buffers.old.«data».now (state_in started.session buffers.old) ended (state_in ended.session buffers.new) (R.remaining reader.old) (R.remaining reader.new) (W.contents writer.old) (W.contents writer.new)) }
    ensures same { SameBuffers buffers.old buffers.new }
{
    let mut text = Text {
        bytes: text,
        end: 0,
    };
    let mut input = Input::new(input);
    let mut progress = started();
    // A proved loop has to end, and nothing says that the input does: so its turns are counted, up to a number that no run uses up.
    for _ in 0..u64::MAX {
        if !progress.more {
            return Ok(progress);
        }
        progress = take_turn(reader, writer, &mut text, progress, &mut input, buffers)?;
    }
    Ok(progress)
}

// ---- Buffers

// Bytes of the text that is not yet written out: room for two answers at least.
const TEXT: usize = 2 * state_text::MAX_ANSWER;

// As much log as a script may lend.
pub fn log_buffer() -> [u8; call_script::MAX_LENT_LOG]
    ensures { length result ≡ max_lent_log }
{
    input_bytes::zeros()
}

// As much collect buffer as a script may lend.
pub fn collect_buffer() -> [u8; call_script::MAX_LENT_COLLECT]
    ensures { length result ≡ max_lent_collect }
{
    input_bytes::zeros()
}

// Either region may have all of guest memory.
pub fn region_buffer() -> [u8; call_script::MAX_WINDOW]
    ensures { length result ≡ max_window }
{
    input_bytes::zeros()
}

// The device's data, of which a call is given the first bytes.
pub fn data_buffer() -> [u8; call_script::MAX_SCRIPT_DATA]
    ensures { length result ≡ max_script_data }
{
    input_bytes::zeros()
}

// Runs the call script that the reader gives and writes the answers. What it reads and writes is all that it does.
pub fn run<R: Read, W: Write>(reader: &mut R, writer: &mut W) -> io::Result<()> {
    let mut input = input_bytes::zeros::<{ script_lines::PIECE }>();
    let mut text = input_bytes::zeros::<TEXT>();
    let mut log = log_buffer();
    let mut collect = collect_buffer();
    let mut low = region_buffer();
    let mut high = region_buffer();
    let mut data = data_buffer();
    script_bytes::fill_device(&mut data);
    script_bytes::fill_guest(&mut low, session::FIRST_BASE);
    let mut buffers = LentBuffers {
        log: &mut log,
        collect: &mut collect,
        data: &data,
        low: &mut low,
        high: &mut high,
    };
    let progress = run_input(reader, writer, &mut text, &mut input, &mut buffers)?;
    script_lines::print_bad_line(writer, (!progress.good).then_some(progress.lines))
}
