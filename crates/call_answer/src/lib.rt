// The answer of a call: its text, and for a completion what it does to guest memory.
#![tactic(auto)]

ghost use Rattle.std.specs.Prelude.{◌≡◌, ◌+◌, ◌/◌, ◌≤◌, length};
ghost use Rattle.trb.specs.Limits.{record_length, min_row_log};
ghost use Rattle.guest_memory.specs.Lent.{lent, SameRegions};
ghost use Rattle.text.specs.Wrote.{HasRoom, Wrote};
ghost use Rattle.call_text.specs.Widths.{max_first, max_record_lines, max_carried_out};
ghost use Rattle.log_text.specs.Lines.{lines_in};
ghost use Rattle.call_answer.specs.Answers.{answer_text, Answered, RowAnswered, CarriedOut};
ghost use Rattle.call_answer.specs.Called.{bad_said, silent_said, ran_of};

use guest_memory::GuestMemory;
use text::Text;
use trb::{Answer, CompletionAnswer};

// Writes a line for each record of a log. That a log is no longer than a row's, so that its lines fit, stands here and in the contracts up
// to `lent_calls`, since each is lent a slice of its own: above that, the type of a script's buffers says it.
fn put_records(text: &mut Text<'_>, log: &[u8])
    requires has_room { HasRoom max_record_lines text.old }
    requires log_len_bound { length log.now ≤ min_row_log }
    ensures { Wrote max_record_lines text.old (lines_in (length log.now / record_length) log.now) text.new }
{
    log_text::put_lines(text, log);
}

// Of creation, submission and cancel. How many records there are is printed too, of a log that is a whole buffer: so both are passed, here
// and below.
pub fn put_answer(text: &mut Text<'_>, answer: Answer, records: usize, log: &[u8])
    requires has_room { HasRoom (max_first + max_record_lines) text.old }
    requires log_len_bound { length log.now ≤ min_row_log }
    ensures { Wrote (max_first + max_record_lines) text.old (answer_text answer records log.now) text.new }
{
    match answer {
        Ok(()) => {
            call_text::put_accepted(text, call_text::count(records));
            put_records(text, call_log::first_records(log, records));
        }
        Err(refusal) => call_text::put_refused(text, u8::from(refusal)),
    }
}

// Writes the lines of the first records of a log, carries these out and writes carry-out's answer.
fn put_carried_out(
    text: &mut Text<'_>,
    records: usize,
    log: &[u8],
    data: &[u8],
    memory: &mut GuestMemory<'_>,
)
    requires has_room { HasRoom (max_record_lines + max_carried_out) text.old }
    requires log_len_bound { length log.now ≤ min_row_log }
    ensures answer { CarriedOut records log.now «data».now (lent memory.old) text.old text.new (lent memory.new) }
    ensures same { SameRegions memory.old memory.new }
{
    let shown = call_log::first_records(log, records);
    put_records(text, shown);
    let answer = carry_out::carry_out(shown, data, memory);
    call_text::put_carried_out(text, trb::number_of(answer));
}

// Of a completion, which is carried out.
pub fn put_completion(
    text: &mut Text<'_>,
    answer: CompletionAnswer,
    records: usize,
    log: &[u8],
    data: &[u8],
    memory: &mut GuestMemory<'_>,
)
    requires has_room { HasRoom (max_first + max_record_lines + max_carried_out) text.old }
    requires log_len_bound { length log.now ≤ min_row_log }
    ensures answer { Answered answer records log.now «data».now (lent memory.old) text.old text.new (lent memory.new) }
    ensures same { SameRegions memory.old memory.new }
{
    match answer {
        Ok(result) => {
            call_text::put_completed(text, call_text::count(records), result);
            put_carried_out(text, records, log, data, memory);
        }
        Err(refusal) => call_text::put_refused(text, u8::from(refusal)),
    }
}

// Of a row, of which so many TDs were finished well; it is carried out.
pub fn put_row(
    text: &mut Text<'_>,
    answer: CompletionAnswer,
    finished: usize,
    records: usize,
    log: &[u8],
    data: &[u8],
    memory: &mut GuestMemory<'_>,
)
    requires has_room { HasRoom (max_first + max_record_lines + max_carried_out) text.old }
    requires log_len_bound { length log.now ≤ min_row_log }
    ensures answer { RowAnswered answer finished records log.now «data».now (lent memory.old) text.old text.new (lent memory.new) }
    ensures same { SameRegions memory.old memory.new }
{
    match answer {
        Ok(result) => {
            call_text::put_row_completed(
                text,
                call_text::count(records),
                result,
                call_text::count(finished),
            );
            put_carried_out(text, records, log, data, memory);
        }
        Err(refusal) => call_text::put_refused(text, u8::from(refusal)),
    }
}

// ---- What a call leaves

// What a line leaves: a block or a session, how many records were logged, and whether the line was good: the others are there either way.
#[derive(Clone, Copy)]
pub struct Ran<S> {
    pub left: S,
    pub records: usize,
    pub good: bool,
}

// A bad line: nothing is done and nothing printed.
pub fn bad<S>(left: S) -> Ran<S>
    ensures { result ≡ ran_of (bad_said left) }
{
    Ran {
        left,
        records: 0,
        good: false,
    }
}

// A call that prints nothing.
pub fn silent<S>(left: S) -> Ran<S>
    ensures { result ≡ ran_of (silent_said left) }
{
    Ran {
        left,
        records: 0,
        good: true,
    }
}
