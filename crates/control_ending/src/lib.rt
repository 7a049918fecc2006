// What the completion of a control transfer logs behind the events of the TRBs held; ports `handle_processing_error`.
#![tactic(auto)]

ghost use Rattle.std.specs.Prelude.{[], ◌∷◌, ◌≡◌, ◌+◌, ◌*◌, ◌≤◌, length};
ghost use Rattle.trb.specs.Limits.{record_length};
ghost use Rattle.call_log.specs.Calls.{Meets, counted};
ghost use Rattle.control_chain.specs.Endings.{info_of, event_of, last_records};

use control_block::Ending;
use td_part::TdInfo;
use trb::{CompletionCode, EndpointId, SlotId};

// What stays the same over the TRBs held, as a completion ends so.
pub fn info_of(ending: Ending, endpoint_id: EndpointId, slot_id: SlotId) -> TdInfo
    ensures { result ≡ info_of ending endpoint_id slot_id }
{
    TdInfo {
        endpoint_id,
        slot_id,
        data_length: match ending {
            Ending::Realize(given) => given.unwrap_or(0),
            _ => 0,
        },
    }
}

// An event with residual 0 behind `count` records; returns how many there are then.
// Log and count stay apart: the count comes of the walk's progress and goes into what the call returns, both without the log.
fn put_event(
    log: &mut [u8],
    count: usize,
    addr: u64,
    code: CompletionCode,
    endpoint_id: EndpointId,
    slot_id: SlotId,
) -> usize
    requires { record_length * (count + 1) ≤ length log.old }
    ensures { Meets (counted count (event_of addr code endpoint_id slot_id ∷ [])) count log.old result log.new }
{
    let event = call_log::transfer_event(addr, 0, code, false, endpoint_id, slot_id);
    call_log::put_record(log, count, event);
    count + 1
}

// The event behind those of the TRBs held: of the bad TRB, or of the transfer that failed, which goes to `error_address`. Returns how many
// records there are then.
#[tactic(auto, using(call_log::proofs::LogLaws::logged_none))]
pub fn log_ending(
    log: &mut [u8],
    count: usize,
    ending: Ending,
    error_address: u64,
    endpoint_id: EndpointId,
    slot_id: SlotId,
) -> usize
    requires { record_length * (count + length (last_records ending error_address endpoint_id slot_id)) ≤ length log.old }
    ensures { Meets (counted count (last_records ending error_address endpoint_id slot_id)) count log.old result log.new }
{
    match ending {
        Ending::KeepCollecting | Ending::Realize(_) => count,
        Ending::ReportBadTrb(addr) => put_event(
            log,
            count,
            addr,
            CompletionCode::TrbError,
            endpoint_id,
            slot_id,
        ),
        Ending::Fail(code, _) => put_event(log, count, error_address, code, endpoint_id, slot_id),
    }
}
