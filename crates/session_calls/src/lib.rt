// Each call of a script, made on what the script has come to, with its answer.
// Session and buffers stay two: a session is copied, and is read as it was before a call too; what is lent can be neither.
#![tactic(auto)]

ghost use Rattle.std.specs.Prelude.{List, ℕ};
ghost use Rattle.text.specs.Wrote.{HasRoom};
ghost use Rattle.state_text.specs.Widths.{max_answer};
ghost use Rattle.session_calls.specs.Buffers.{SameBuffers};
ghost use Rattle.session_calls.specs.Answers.{state_of, state_in, in_answer, control_answer, row_answer, endpoint_answer, endpoint_row_answer, in_creation, control_creation, answer_of, Answers};

use call_answer::Ran;
use call_script::Call;
use control_block::GuestRelease;
use held::EndpointKind;
use in_td::InMode;
use row_walk::TdResult;
use session::{LentBuffers, Session};
use text::Text;
use trb::{EndpointId, SlotId};

// A call on an IN endpoint. The collect buffer stays as it was.
fn run_in(
    text: &mut Text<'_>,
    session: Session,
    call: Call,
    buffers: &mut LentBuffers<'_>,
) -> Ran<Session>
    requires { HasRoom max_answer text.old }
    ensures answer { Answers (in_answer buffers.old.«data».now (state_in session buffers.old) call) text.old result text.new (state_in result.left buffers.new) }
    ensures same { SameBuffers buffers.old buffers.new }
{
    let ran = lent_calls::run_in(
        text,
        session.lent,
        session.in_block,
        call,
        buffers.log,
        buffers.data,
        buffers.low,
        buffers.high,
    );
    session::after_in(session, ran)
}

// `r`, on an IN endpoint: the row written down is empty afterwards, whatever the answer.
fn run_row(
    text: &mut Text<'_>,
    session: Session,
    bytes: usize,
    buffers: &mut LentBuffers<'_>,
) -> Ran<Session>
    requires { HasRoom max_answer text.old }
    ensures answer { Answers (row_answer buffers.old.«data».now (state_in session buffers.old) bytes) text.old result text.new (state_in result.left buffers.new) }
    ensures same { SameBuffers buffers.old buffers.new }
{
    let ran = lent_calls::run_row(
        text,
        session.lent,
        session.in_block,
        session.row,
        bytes,
        buffers.log,
        buffers.data,
        buffers.low,
        buffers.high,
    );
    session::after_in(session::without_row(session), ran)
}

// A call on a control endpoint.
fn run_control(
    text: &mut Text<'_>,
    session: Session,
    call: Call,
    buffers: &mut LentBuffers<'_>,
) -> Ran<Session>
    requires { HasRoom max_answer text.old }
    ensures answer { Answers (control_answer buffers.old.«data».now (state_in session buffers.old) call) text.old result text.new (state_in result.left buffers.new) }
    ensures same { SameBuffers buffers.old buffers.new }
{
    let ran = lent_calls::run_control(
        text,
        session.lent,
        session.control_block,
        call,
        buffers.log,
        buffers.collect,
        buffers.data,
        buffers.low,
        buffers.high,
    );
    session::after_control(session, ran)
}

// A call on the endpoint that there is.
#[tactic(auto, unfolding(crate::specs::Answers::endpoint_answer))]
fn run_on_endpoint(
    text: &mut Text<'_>,
    session: Session,
    call: Call,
    buffers: &mut LentBuffers<'_>,
) -> Ran<Session>
    requires { HasRoom max_answer text.old }
    ensures answer { Answers (endpoint_answer session.endpoint buffers.old.«data».now (state_in session buffers.old) call) text.old result text.new (state_in result.left buffers.new) }
    ensures same { SameBuffers buffers.old buffers.new }
{
    match session.endpoint {
        Some(EndpointKind::In) => run_in(text, session, call, buffers),
        Some(EndpointKind::Control) => run_control(text, session, call, buffers),
        None => call_answer::bad(session),
    }
}

// `r`, on the endpoint that there is.
#[tactic(auto, unfolding(crate::specs::Answers::endpoint_row_answer))]
fn run_row_on_endpoint(
    text: &mut Text<'_>,
    session: Session,
    bytes: usize,
    buffers: &mut LentBuffers<'_>,
) -> Ran<Session>
    requires { HasRoom max_answer text.old }
    ensures answer { Answers (endpoint_row_answer session.endpoint buffers.old.«data».now (state_in session buffers.old) bytes) text.old result text.new (state_in result.left buffers.new) }
    ensures same { SameBuffers buffers.old buffers.new }
{
    match session.endpoint {
        Some(EndpointKind::In) => run_row(text, session, bytes, buffers),
        Some(EndpointKind::Control) => call_answer::bad(session),
        None => call_answer::bad(session),
    }
}

// `i`: the row that was being written down is empty afterwards.
fn create_in(
    text: &mut Text<'_>,
    session: Session,
    endpoint_id: EndpointId,
    slot_id: SlotId,
    mode: InMode,
) -> Ran<Session>
    requires { HasRoom max_answer text.old }
    ensures { (log collect low high : List ℕ) → Answers (in_creation (state_of session log collect low high) endpoint_id slot_id mode) text.old result text.new (state_of result.left log collect low high) }
{
    session::after_in(
        session::without_row(session),
        in_calls::create(text, endpoint_id, slot_id, mode),
    )
}

// `c`, likewise.
fn create_control(
    text: &mut Text<'_>,
    session: Session,
    endpoint_id: EndpointId,
    slot_id: SlotId,
    release: GuestRelease,
    collect: &[u8],
) -> Ran<Session>
    requires { HasRoom max_answer text.old }
    ensures { (log low high : List ℕ) → Answers (control_creation (state_of session log collect.now low high) endpoint_id slot_id release) text.old result text.new (state_of result.left log collect.now low high) }
{
    session::after_control(
        session::without_row(session),
        control_calls::create(text, endpoint_id, slot_id, release, collect),
    )
}

// Makes a call and writes its answer.
pub fn run_call(
    text: &mut Text<'_>,
    session: Session,
    call: Call,
    buffers: &mut LentBuffers<'_>,
) -> Ran<Session>
    requires { HasRoom max_answer text.old }
    ensures answer { Answers (answer_of buffers.old.«data».now (state_in session buffers.old) call) text.old result text.new (state_in result.left buffers.new) }
    ensures same { SameBuffers buffers.old buffers.new }
{
    match call {
        Call::Window(window) => session_lines::move_window(
            session,
            window,
            buffers.low,
            buffers.high,
        ),
        Call::Buffers(log, collect) => session_lines::lend_buffers(session, log, collect),
        Call::CreateIn(endpoint_id, slot_id, mode) => create_in(
            text,
            session,
            endpoint_id,
            slot_id,
            mode,
        ),
        Call::CreateControl(endpoint_id, slot_id, release) => {
            // A slice that a lent struct holds, passed on to be read, is a variable first: else only its length would be known afterwards.
            let collect = &mut *buffers.collect;
            create_control(text, session, endpoint_id, slot_id, release, collect)
        }
        Call::AppendTrb(t) => session_lines::append_trb(session, t),
        Call::AppendResult(status, length) => {
            session_lines::append_result(session, TdResult { status, length })
        }
        Call::CompleteRow(length) => run_row_on_endpoint(text, session, length, buffers),
        Call::Time(_) => call_answer::silent(session),
        Call::Captured(_, _) => call_answer::silent(session),
        _ => run_on_endpoint(text, session, call, buffers),
    }
}
