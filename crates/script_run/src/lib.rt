// A line of a call script, taken: its call is made, and its answer written.
#![tactic(auto)]

ghost use Rattle.std.specs.Prelude.{◌≡◌};
ghost use Rattle.text.specs.Wrote.{HasRoom};
ghost use Rattle.state_text.specs.Widths.{max_answer};
ghost use Rattle.session_calls.specs.Buffers.{SameBuffers};
ghost use Rattle.session_calls.specs.Answers.{state_in};
ghost use Rattle.script_run.specs.Runs.{line_call, TakesLine};

use call_answer::Ran;
use call_script::Call;
use session::{LentBuffers, Session};
use text::Text;

// The call of a line, which comes without its line feed, if it asks for one; a line that is too long does not.
fn read_line(line: &[u8]) -> Option<Call>
    ensures { result ≡ line_call line.now }
{
    if script_lines::MAX_LINE < line.len() {
        return None;
    }
    call_script::read_call(line)
}

// Takes one line, which comes without its line feed.
pub fn take_line(
    text: &mut Text<'_>,
    session: Session,
    line: &[u8],
    buffers: &mut LentBuffers<'_>,
) -> Ran<Session>
    requires { HasRoom max_answer text.old }
    ensures taken { TakesLine buffers.old.«data».now line.now (state_in session buffers.old) text.old result text.new (state_in result.left buffers.new) }
    ensures same { SameBuffers buffers.old buffers.new }
{
    let Some(call) = read_line(line) else {
        return call_answer::bad(session);
    };
    session_calls::run_call(text, session, call, buffers)
}
