// The calls of a script on a control endpoint.
// As `in_calls`, over another block: a trait for both would have a method and a law for each call, and the collect buffer for one.
#![tactic(auto)]

ghost use Rattle.std.specs.Prelude.{◌≡◌, ◌≤◌, length};
ghost use Rattle.trb.specs.Limits.{min_row_log};
ghost use Rattle.text.specs.Wrote.{HasRoom};
ghost use Rattle.state_text.specs.Widths.{max_state, max_answer};
ghost use Rattle.guest_memory.specs.Lent.{seen, lent, SameRegions};
ghost use Rattle.call_answer.specs.Called.{silent_said, ran_of, Says, Runs};
ghost use Rattle.control_calls.specs.Calls.{standing, create_call, collect_after, submit_call, complete_call, cancel_call, hold_call, made_up, result_of, result_given, control_call, collect_behind, Stated, RunsWith};

use call_answer::Ran;
use call_script::{Call, DeviceStatus};
use control_block::{ControlBlock, ControlTransfer, GuestRelease};
use guest_memory::{GuestMemory, GuestView};
use state_text::ControlStanding;
use text::Text;
use trb::{
    ControlRequestProcessingResult, ControlSubmissionState, ControlTransferState, EndpointId,
    SlotId, TransferTrb, UsbRequest,
};

// What the block is at; `collect` is the whole collect buffer.
fn standing(block: ControlBlock, collect: &[u8]) -> ControlStanding
    ensures { result ≡ standing block collect.now }
{
    let collected = block.transfer.collected;
    let summed = collected.min(trb::MAX_COLLECTED).min(collect.len());
    ControlStanding {
        transfer: block.transfer,
        state: block.state,
        held: call_text::count(block.held),
        sum: script_bytes::weighted_sum(&collect[..summed]),
    }
}

// Writes the state line, behind the answer of a call that logged so many records.
fn answered(
    text: &mut Text<'_>,
    block: ControlBlock,
    collect: &[u8],
    records: usize,
) -> Ran<ControlBlock>
    requires { HasRoom max_state text.old }
    ensures { Stated block collect.now records text.old result text.new }
{
    state_text::put_control_line(text, standing(block, collect));
    Ran {
        left: block,
        records,
        good: true,
    }
}

// Creates a control endpoint and prints the answer.
pub fn create(
    text: &mut Text<'_>,
    endpoint_id: EndpointId,
    slot_id: SlotId,
    release: GuestRelease,
    collect: &[u8],
) -> Ran<ControlBlock>
    requires { HasRoom max_answer text.old }
    ensures { Says (create_call endpoint_id slot_id release collect.now) text.old result text.new }
{
    let created = control_endpoint::create(endpoint_id, slot_id, release);
    call_answer::put_answer(text, created.answer, 0, &[]);
    answered(text, created.block, collect, 0)
}

// Submits a TRB; of the collect buffer, the first `collect_lent` bytes are lent. It is passed whole, with that length, and not cut: the
// state line sums the bytes collected, of which a made-up block may say more than are lent.
fn submit(
    text: &mut Text<'_>,
    log: &mut [u8],
    collect: &mut [u8],
    collect_lent: usize,
    block: ControlBlock,
    t: TransferTrb,
    memory: &GuestView<'_>,
) -> Ran<ControlBlock>
    requires has_room { HasRoom max_answer text.old }
    requires log_len_bound { length log.old ≤ min_row_log }
    ensures { RunsWith (submit_call block t collect_lent collect.old log.old (seen memory.now)) (collect_after block t collect_lent collect.old log.old (seen memory.now)) text.old result text.new log.new collect.new (seen memory.now) }
{
    let end = collect_lent.min(collect.len());
    let submitted = control_submission::submit_trb(log, &mut collect[..end], block, t, memory);
    call_answer::put_answer(text, submitted.answer, submitted.records, log);
    answered(text, submitted.block, collect, submitted.records)
}

fn complete(
    text: &mut Text<'_>,
    log: &mut [u8],
    collect: &[u8],
    block: ControlBlock,
    res: Option<ControlRequestProcessingResult>,
    data: &[u8],
    memory: &mut GuestMemory<'_>,
) -> Ran<ControlBlock>
    requires has_room { HasRoom max_answer text.old }
    requires log_len_bound { length log.old ≤ min_row_log }
    ensures answer { Runs (complete_call block res «data».now collect.now log.old (lent memory.old)) text.old result text.new log.new (lent memory.new) }
    ensures same { SameRegions memory.old memory.new }
{
    let completed = control_completion::next_completion(log, block, res, data);
    call_answer::put_completion(text, completed.answer, completed.records, log, data, memory);
    answered(text, completed.block, collect, completed.records)
}

// A device result of a script as a control endpoint takes it. A table, and no `From`: both types are other crates'.
pub fn result_of(status: DeviceStatus) -> ControlRequestProcessingResult
    ensures { result ≡ result_of status }
{
    match status {
        DeviceStatus::Success => ControlRequestProcessingResult::SuccessfulControlIn,
        DeviceStatus::Stall => ControlRequestProcessingResult::Stall,
        DeviceStatus::TransactionError => ControlRequestProcessingResult::TransactionError,
        DeviceStatus::Disconnect => ControlRequestProcessingResult::Disconnect,
        DeviceStatus::SuccessfulControlOut => ControlRequestProcessingResult::SuccessfulControlOut,
    }
}

// The result that a call gives, if it gives one.
fn result_given(status: Option<DeviceStatus>) -> Option<ControlRequestProcessingResult>
    ensures { result ≡ result_given status }
{
    status.map(|s| result_of(s))
}

fn cancel(text: &mut Text<'_>, block: ControlBlock, collect: &[u8]) -> Ran<ControlBlock>
    requires { HasRoom max_answer text.old }
    ensures { Says (cancel_call block collect.now) text.old result text.new }
{
    call_answer::put_answer(text, Ok(()), 0, &[]);
    answered(text, control_endpoint::cancel(block), collect, 0)
}

#[tactic(auto, unfolding(crate::specs::Calls::hold_call))]
fn hold(mut block: ControlBlock, t: TransferTrb) -> Ran<ControlBlock>
    ensures { result ≡ ran_of (hold_call block t) }
{
    if trb::MAX_HELD <= block.held {
        return call_answer::bad(block);
    }
    control_block::store(&mut block, t);
    call_answer::silent(block)
}

// What the call does not name stays.
fn make_up(
    block: ControlBlock,
    phase: ControlTransferState,
    state: ControlSubmissionState,
    direction: bool,
    length: u32,
) -> Ran<ControlBlock>
    ensures { result ≡ ran_of (silent_said (made_up block phase state direction length)) }
{
    let transfer = ControlTransfer {
        phase,
        direction,
        request: UsbRequest {
            length,
            ..block.transfer.request
        },
        ..block.transfer
    };
    call_answer::silent(control_block::advance(block, transfer, state))
}

// Makes a call on the endpoint. `data` is the device's data, of which the call says how much is given.
pub fn run(
    text: &mut Text<'_>,
    log: &mut [u8],
    collect: &mut [u8],
    collect_lent: usize,
    block: ControlBlock,
    call: Call,
    data: &[u8],
    memory: &mut GuestMemory<'_>,
) -> Ran<ControlBlock>
    requires has_room { HasRoom max_answer text.old }
    requires log_len_bound { length log.old ≤ min_row_log }
    ensures answer { RunsWith (control_call block call «data».now collect_lent collect.old log.old (lent memory.old)) (collect_behind block call collect_lent collect.old log.old (lent memory.old)) text.old result text.new log.new collect.new (lent memory.new) }
    ensures same { SameRegions memory.old memory.new }
{
    match call {
        Call::Submit(t) => submit(text, log, collect, collect_lent, block, t, &memory.view()),
        Call::Complete(status, n) => {
            let given = &data[..n.min(data.len())];
            let result = result_given(status);
            complete(text, log, collect, block, result, given, memory)
        }
        Call::Cancel => cancel(text, block, collect),
        Call::Hold(t) => hold(block, t),
        Call::MakeUpControl(phase, state, direction, length) => make_up(
            block, phase, state, direction, length,
        ),
        _ => call_answer::bad(block),
    }
}
