// A TRB held that is dropped; ports a turn of `clean_current_trbs`.
#![tactic(auto)]

ghost use Rattle.std.specs.Prelude.{◌≡◌, ◌+◌, ◌*◌, ◌≤◌, length};
ghost use Rattle.trb.specs.Limits.{record_length};
ghost use Rattle.call_log.specs.Calls.{Meets};
ghost use Rattle.control_chain.specs.Dropped.{interrupt_of, report_dropped};

use td_part::{TdInfo, TdProgress};
use trb::{TransferTrb, TransferTrbVariant};

fn interrupt_of(variant: TransferTrbVariant) -> bool
    ensures { result ≡ interrupt_of variant }
{
    match variant {
        TransferTrbVariant::SetupStage(setup_stage) => setup_stage.interrupt_on_completion,
        TransferTrbVariant::DataStage(data_stage) => data_stage.interrupt_on_completion,
        TransferTrbVariant::StatusStage(status_stage) => status_stage.interrupt_on_completion,
        TransferTrbVariant::Normal(normal) => normal.interrupt_on_completion,
        TransferTrbVariant::EventData(event_data) => event_data.interrupt_on_completion,
        TransferTrbVariant::NoOp(no_op) => no_op.interrupt_on_completion,
        TransferTrbVariant::Isoch | TransferTrbVariant::Unrecognized => false,
    }
}

// Reports success for a TRB with IOC.
pub fn report_dropped(
    log: &mut [u8],
    info: TdInfo,
    progress: TdProgress,
    t: TransferTrb,
) -> TdProgress
    requires { record_length * (progress.records + 2) ≤ length log.old }
    ensures { Meets (report_dropped info progress t) progress.records log.old result log.new }
{
    let due = interrupt_of(t.variant);
    td_report::report_success(log, info, progress, 0, due, t.addr)
}
