// The TRBs of a TD that move data, and Event Data, which reports how much was moved: IN and control alike.
// Ports `realize_dma_trb` and `handle_event_data_trb`.
#![tactic(auto)]

ghost use Rattle.std.specs.Prelude.{◌≡◌, ◌+◌, ◌*◌, ◌≤◌, length};
ghost use Rattle.trb.specs.Limits.{record_length};
ghost use Rattle.call_log.specs.Calls.{Meets};
ghost use Rattle.td_part.specs.Parts.{Within, code_after, put_dma, realize_dma, handle_event_data};

use td_part::{TdInfo, TdProcessingState, TdProgress, TrbDmaInfo};
use trb::{CompletionCode, EventDataTrb};

// Writes what is left of the device's data, as far as the TRB reaches, and then its event, where that is due, with this code.
#[tactic(auto, unfolding(td_part::specs::Parts::put_dma))]
pub fn put_dma(
    log: &mut [u8],
    td: TdInfo,
    progress: TdProgress,
    dma: TrbDmaInfo,
    due: bool,
    code: CompletionCode,
) -> TdProgress
    requires { (record_length * (progress.records + 2) ≤ length log.old) × Within td progress }
    ensures { Meets (put_dma td progress dma due code) progress.records log.old result log.new }
{
    let moved = td_part::moved_of(td, progress, dma.transfer_length);
    let residual = dma.transfer_length - moved;
    let write = call_log::guest_write(
        dma.data_pointer,
        moved,
        progress.start,
        td.endpoint_id,
        td.slot_id,
    );
    let event = call_log::transfer_event(
        dma.addr,
        residual,
        code,
        false,
        td.endpoint_id,
        td.slot_id,
    );
    let records = call_log::put_then(log, progress.records, write, due, event);
    TdProgress {
        start: progress.start + moved,
        edtla: td_part::edtla_after(progress.edtla, moved),
        state: td_part::state_after(progress.state, residual),
        records,
    }
}

// A TRB of a transfer that succeeded; ports `realize_dma_trb` with data.
#[tactic(auto, unfolding(td_part::specs::Parts::realize_dma))]
pub fn realize_dma_trb(
    log: &mut [u8],
    td: TdInfo,
    progress: TdProgress,
    dma: TrbDmaInfo,
) -> TdProgress
    requires { (record_length * (progress.records + 2) ≤ length log.old) × Within td progress }
    ensures { Meets (realize_dma td progress dma) progress.records log.old result log.new }
{
    let residual = td_part::residual_of(td, progress, dma.transfer_length);
    let due = td_part::due_for(dma, residual);
    let code = td_part::code_for(residual);
    put_dma(log, td, progress, dma, due, code)
}

fn code_after(state: TdProcessingState) -> CompletionCode
    ensures { result ≡ code_after state }
{
    match state {
        TdProcessingState::Default => CompletionCode::Success,
        TdProcessingState::ShortTransfer(_) => CompletionCode::ShortPacket,
    }
}

// An Event Data TRB reports the EDTLA, which then returns to 0.
pub fn handle_event_data_trb(
    log: &mut [u8],
    td: TdInfo,
    progress: TdProgress,
    event_data: EventDataTrb,
) -> TdProgress
    requires { record_length * (progress.records + 2) ≤ length log.old }
    ensures { Meets (handle_event_data td progress event_data) progress.records log.old result log.new }
{
    let event = call_log::transfer_event(
        event_data.event_data,
        progress.edtla,
        code_after(progress.state),
        true,
        td.endpoint_id,
        td.slot_id,
    );
    let records = call_log::put_when(
        log,
        progress.records,
        event_data.interrupt_on_completion,
        event,
    );
    TdProgress {
        edtla: 0,
        records,
        ..progress
    }
}
