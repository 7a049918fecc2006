// The whole lines of a piece of a call script, taken one after the other.
#![tactic(auto)]

ghost use Rattle.std.specs.Prelude.{◌≡◌, ◌≤◌, length};
ghost use Rattle.state_text.specs.Widths.{max_answer};
ghost use Rattle.session_calls.specs.Buffers.{SameBuffers};
ghost use Rattle.session_calls.specs.Answers.{state_in};
ghost use Rattle.script_pieces.specs.Pieces.{TakesLines};

use session::{LentBuffers, Session};
use text::Text;

// What was taken: the session behind it, the index of the first byte that was not, how many lines, and whether every line was good: the
// others are there either way.
#[derive(Clone, Copy)]
pub struct Taken {
    pub session: Session,
    pub next: usize,
    pub lines: usize,
    pub good: bool,
}

// Takes the whole lines of the input from index `from` on, as long as they are good and the text has room for a further answer. The text
// starts anew.
// How long the text's buffer is stays as a writer writes: a fact of the slice that was lent, which a text of any length does not say.
pub fn take_lines(
    text: &mut Text<'_>,
    session: Session,
    input: &[u8],
    from: usize,
    buffers: &mut LentBuffers<'_>,
) -> Taken
    requires max_answer_in_bounds { max_answer ≤ length text.old.bytes.now }
    requires from_in_bounds { from ≤ length input.now }
    ensures taken { TakesLines buffers.old.«data».now input.now from (state_in session buffers.old) result text.new (state_in result.session buffers.new) }
    ensures text { text.new.bytes.ghost_name ≡ text.old.bytes.ghost_name }
    ensures size { length text.new.bytes.now ≡ length text.old.bytes.now }
    ensures same { SameBuffers buffers.old buffers.new }
{
    let room = text.bytes.len() - state_text::MAX_ANSWER;
    text.end = 0;
    let mut taken = Taken {
        session,
        next: from,
        lines: 0,
        good: true,
    };
    // A line ends where its line feed is, and a bad one ends the run.
    while taken.good {
        let stop = script_lines::line_end(input, taken.next);
        if input.len() <= stop {
            return taken;
        }
        if room < text.end {
            return taken;
        }
        let line = &input[taken.next..stop];
        let ran = script_run::take_line(text, taken.session, line, buffers);
        taken = Taken {
            session: ran.left,
            next: stop + 1,
            lines: taken.lines + 1,
            good: ran.good,
        };
    }
    taken
}
