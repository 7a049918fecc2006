// The TRBs of a TD that move no data and report: IN and control alike.
#![tactic(auto)]

ghost use Rattle.std.specs.Prelude.{◌+◌, ◌*◌, ◌≤◌, length};
ghost use Rattle.trb.specs.Limits.{record_length};
ghost use Rattle.call_log.specs.Calls.{Meets};
ghost use Rattle.td_part.specs.Parts.{report_trb, repeat_short, report_success};

use td_part::{TdInfo, TdProgress};
use trb::CompletionCode;

// A TRB that moves no data: its event, where it is due, and the EDTLA given anew.
fn report(
    log: &mut [u8],
    td: TdInfo,
    progress: TdProgress,
    edtla: u32,
    due: bool,
    addr: u64,
    residual: u32,
    code: CompletionCode,
) -> TdProgress
    requires { record_length * (progress.records + 2) ≤ length log.old }
    ensures { Meets (report_trb td progress edtla due addr residual code) progress.records log.old result log.new }
{
    let event = call_log::transfer_event(addr, residual, code, false, td.endpoint_id, td.slot_id);
    let records = call_log::put_when(log, progress.records, due, event);
    TdProgress {
        edtla,
        records,
        ..progress
    }
}

// A Normal after a short TRB repeats the short one's residual.
pub fn repeat_short(
    log: &mut [u8],
    td: TdInfo,
    progress: TdProgress,
    missing: u32,
    interrupt_on_completion: bool,
    addr: u64,
) -> TdProgress
    requires { record_length * (progress.records + 2) ≤ length log.old }
    ensures { Meets (repeat_short td progress missing interrupt_on_completion addr) progress.records log.old result log.new }
{
    report(
        log,
        td,
        progress,
        progress.edtla,
        interrupt_on_completion,
        addr,
        missing,
        CompletionCode::ShortPacket,
    )
}

// A TRB that moves no data succeeds.
pub fn report_success(
    log: &mut [u8],
    td: TdInfo,
    progress: TdProgress,
    edtla: u32,
    interrupt_on_completion: bool,
    addr: u64,
) -> TdProgress
    requires { record_length * (progress.records + 2) ≤ length log.old }
    ensures { Meets (report_success td progress edtla interrupt_on_completion addr) progress.records log.old result log.new }
{
    report(
        log,
        td,
        progress,
        edtla,
        interrupt_on_completion,
        addr,
        0,
        CompletionCode::Success,
    )
}
