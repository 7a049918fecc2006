// The calls of a script on an IN endpoint.
// What a call is lent stays apart: a struct of it would have to promise of each slice, call for call, that it is still the same.
#![tactic(auto)]

ghost use Rattle.std.specs.Prelude.{◌≡◌, ◌≤◌, length};
ghost use Rattle.trb.specs.Limits.{min_row_log};
ghost use Rattle.text.specs.Wrote.{HasRoom};
ghost use Rattle.state_text.specs.Widths.{max_state, max_answer};
ghost use Rattle.guest_memory.specs.Lent.{seen, lent, SameRegions};
ghost use Rattle.in_block.specs.Blocks.{with_state};
ghost use Rattle.call_answer.specs.Called.{silent_said, ran_of, Says, Runs};
ghost use Rattle.in_calls.specs.Calls.{create_call, submit_call, complete_call, row_call, cancel_call, hold_call, result_of, result_call, completion_call, in_call, Stated};

use call_answer::Ran;
use call_script::{Call, DeviceStatus};
use guest_memory::{GuestMemory, GuestView};
use in_block::InBlock;
use in_td::InMode;
use row_walk::TdResult;
use text::Text;
use trb::{EndpointId, InTrbProcessingStatus, SlotId, TdBasedNormalSubmissionState, TransferTrb};

// A row that was written down: TRBs and results, and how many there are of each. A count stands beside its places, and is no slice's
// length: without a heap the places are fixed memory, and a row of more TRBs than they hold is refused by its count.
#[derive(Clone, Copy)]
pub struct Row {
    pub trbs: [TransferTrb; trb::MAX_ROW],
    pub count: usize,
    pub results: [TdResult; trb::MAX_ROW],
    pub tds: usize,
}

// Writes the state line, behind the answer of a call that logged so many records.
fn answered(text: &mut Text<'_>, block: InBlock, records: usize) -> Ran<InBlock>
    requires { HasRoom max_state text.old }
    ensures { Stated block records text.old result text.new }
{
    state_text::put_in_line(text, block.state, call_text::count(block.held));
    Ran {
        left: block,
        records,
        good: true,
    }
}

// Creates an IN endpoint and prints the answer.
pub fn create(
    text: &mut Text<'_>,
    endpoint_id: EndpointId,
    slot_id: SlotId,
    mode: InMode,
) -> Ran<InBlock>
    requires { HasRoom max_answer text.old }
    ensures { Says (create_call endpoint_id slot_id mode) text.old result text.new }
{
    let created = in_endpoint::create(endpoint_id, slot_id, mode);
    call_answer::put_answer(text, created.answer, 0, &[]);
    answered(text, created.block, 0)
}

fn submit(
    text: &mut Text<'_>,
    log: &mut [u8],
    block: InBlock,
    t: TransferTrb,
    memory: &GuestView<'_>,
) -> Ran<InBlock>
    requires has_room { HasRoom max_answer text.old }
    requires log_len_bound { length log.old ≤ min_row_log }
    ensures { Runs (submit_call block t log.old (seen memory.now)) text.old result text.new log.new (seen memory.now) }
{
    let submitted = in_submission::submit_trb(log, block, t, memory);
    call_answer::put_answer(text, submitted.answer, submitted.records, log);
    answered(text, submitted.block, submitted.records)
}

fn complete(
    text: &mut Text<'_>,
    log: &mut [u8],
    block: InBlock,
    res: Option<InTrbProcessingStatus>,
    data: &[u8],
    memory: &mut GuestMemory<'_>,
) -> Ran<InBlock>
    requires has_room { HasRoom max_answer text.old }
    requires log_len_bound { length log.old ≤ min_row_log }
    ensures answer { Runs (complete_call block res «data».now log.old (lent memory.old)) text.old result text.new log.new (lent memory.new) }
    ensures same { SameRegions memory.old memory.new }
{
    let completed = in_completion::next_completion(log, block, res, data);
    call_answer::put_completion(text, completed.answer, completed.records, log, data, memory);
    answered(text, completed.block, completed.records)
}

// A device result of a script as an IN endpoint takes it; SuccessfulControlOut is none.
pub fn result_of(status: DeviceStatus) -> Option<InTrbProcessingStatus>
    ensures { result ≡ result_of status }
{
    match status {
        DeviceStatus::Success => Some(InTrbProcessingStatus::Success),
        DeviceStatus::Stall => Some(InTrbProcessingStatus::Stall),
        DeviceStatus::TransactionError => Some(InTrbProcessingStatus::TransactionError),
        DeviceStatus::Disconnect => Some(InTrbProcessingStatus::Disconnect),
        DeviceStatus::SuccessfulControlOut => None,
    }
}

fn complete_with_result(
    text: &mut Text<'_>,
    log: &mut [u8],
    block: InBlock,
    status: DeviceStatus,
    data: &[u8],
    memory: &mut GuestMemory<'_>,
) -> Ran<InBlock>
    requires has_room { HasRoom max_answer text.old }
    requires log_len_bound { length log.old ≤ min_row_log }
    ensures answer { Runs (result_call block (result_of status) «data».now log.old (lent memory.old)) text.old result text.new log.new (lent memory.new) }
    ensures same { SameRegions memory.old memory.new }
{
    let result = result_of(status);
    match result {
        None => call_answer::bad(block),
        Some(_) => complete(text, log, block, result, data, memory),
    }
}

// With the device result that a call gives, or without one.
fn complete_with(
    text: &mut Text<'_>,
    log: &mut [u8],
    block: InBlock,
    status: Option<DeviceStatus>,
    data: &[u8],
    memory: &mut GuestMemory<'_>,
) -> Ran<InBlock>
    requires has_room { HasRoom max_answer text.old }
    requires log_len_bound { length log.old ≤ min_row_log }
    ensures answer { Runs (completion_call block status «data».now log.old (lent memory.old)) text.old result text.new log.new (lent memory.new) }
    ensures same { SameRegions memory.old memory.new }
{
    match status {
        None => complete(text, log, block, None, data, memory),
        Some(status) => complete_with_result(text, log, block, status, data, memory),
    }
}

fn cancel(text: &mut Text<'_>, block: InBlock) -> Ran<InBlock>
    requires { HasRoom max_answer text.old }
    ensures { Says (cancel_call block) text.old result text.new }
{
    call_answer::put_answer(text, Ok(()), 0, &[]);
    answered(text, in_endpoint::cancel(block), 0)
}

#[tactic(auto, unfolding(crate::specs::Calls::hold_call))]
fn hold(mut block: InBlock, t: TransferTrb) -> Ran<InBlock>
    ensures { result ≡ ran_of (hold_call block t) }
{
    if trb::MAX_HELD <= block.held {
        return call_answer::bad(block);
    }
    in_block::store(&mut block, t);
    call_answer::silent(block)
}

fn make_up(block: InBlock, state: TdBasedNormalSubmissionState) -> Ran<InBlock>
    ensures { result ≡ ran_of (silent_said (with_state block state)) }
{
    call_answer::silent(in_block::with_state(block, state))
}

// Completes the TDs of a row.
pub fn complete_row(
    text: &mut Text<'_>,
    log: &mut [u8],
    block: InBlock,
    row: Row,
    data: &[u8],
    memory: &mut GuestMemory<'_>,
) -> Ran<InBlock>
    requires has_room { HasRoom max_answer text.old }
    requires log_len_bound { length log.old ≤ min_row_log }
    ensures answer { Runs (row_call block row «data».now log.old (lent memory.old)) text.old result text.new log.new (lent memory.new) }
    ensures same { SameRegions memory.old memory.new }
{
    let completed = in_row::complete_tds(
        log,
        block,
        row.trbs,
        row.count,
        row.results,
        row.tds,
        &memory.view(),
        data,
    );
    call_answer::put_row(
        text,
        completed.answer,
        completed.finished,
        completed.records,
        log,
        data,
        memory,
    );
    answered(text, completed.block, completed.records)
}

// Makes a call on the endpoint. `data` is the device's data, of which the call says how much is given.
pub fn run(
    text: &mut Text<'_>,
    log: &mut [u8],
    block: InBlock,
    call: Call,
    data: &[u8],
    memory: &mut GuestMemory<'_>,
) -> Ran<InBlock>
    requires has_room { HasRoom max_answer text.old }
    requires log_len_bound { length log.old ≤ min_row_log }
    ensures answer { Runs (in_call block call «data».now log.old (lent memory.old)) text.old result text.new log.new (lent memory.new) }
    ensures same { SameRegions memory.old memory.new }
{
    match call {
        Call::Submit(t) => submit(text, log, block, t, &memory.view()),
        Call::Complete(status, n) => {
            let given = &data[..n.min(data.len())];
            complete_with(text, log, block, status, given, memory)
        }
        Call::Cancel => cancel(text, block),
        Call::Hold(t) => hold(block, t),
        Call::MakeUpIn(state) => make_up(block, state),
        _ => call_answer::bad(block),
    }
}
