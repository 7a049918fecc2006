// The turns of the TRBs held as the completion of a control transfer comes; ports `realize_control_chain`.
#![tactic(auto)]

ghost use Rattle.std.specs.Prelude.{◌+◌, ◌*◌, ◌≤◌, length};
ghost use Rattle.trb.specs.Limits.{record_length};
ghost use Rattle.call_log.specs.Calls.{Meets};
ghost use Rattle.walks.specs.Walk.{walk};
ghost use Rattle.td_part.specs.Parts.{Within, at_start};
ghost use Rattle.control_chain.specs.Chain.{realize_trb, never};
ghost use Rattle.control_chain.specs.Endings.{next_trb};

use control_block::Ending;
use control_chain::ControlTd;
use td_part::{TdInfo, TdProgress};
use trb::{TransferTrb, TransferTrbVariant};

// One TRB; ports a turn of `realize_control_chain`.
#[tactic(auto, using(call_log::proofs::LogLaws::logged_none), unfolding(control_chain::specs::Chain::realize_trb))]
fn realize_trb(log: &mut [u8], td: ControlTd, progress: TdProgress, t: TransferTrb) -> TdProgress
    requires { (record_length * (progress.records + 2) ≤ length log.old) × Within td.info progress }
    ensures { Meets (realize_trb td progress t) progress.records log.old result log.new }
{
    let info = td.info;
    match t.variant {
        TransferTrbVariant::SetupStage(setup_stage) => control_chain::realize_stage(
            log,
            info,
            progress,
            setup_stage.interrupt_on_completion,
            t.addr,
        ),
        TransferTrbVariant::DataStage(data_stage) => control_chain::realize_data_stage(
            log, td, progress, data_stage, t.addr,
        ),
        TransferTrbVariant::StatusStage(status_stage) => control_chain::realize_stage(
            log,
            info,
            progress,
            status_stage.interrupt_on_completion,
            t.addr,
        ),
        TransferTrbVariant::Normal(normal) => control_chain::realize_normal(
            log, td, progress, normal, t.addr,
        ),
        TransferTrbVariant::EventData(event_data) => td_data::handle_event_data_trb(
            log, info, progress, event_data,
        ),
        _ => progress,
    }
}

// A TRB held has its turn as the completion ends so: it is dropped, realized, or passed over.
#[tactic(auto, using(call_log::proofs::LogLaws::logged_none))]
pub fn next_trb(
    log: &mut [u8],
    ending: Ending,
    info: TdInfo,
    progress: TdProgress,
    t: TransferTrb,
) -> TdProgress
    requires { (record_length * (progress.records + 2) ≤ length log.old) × Within info progress }
    ensures { Meets (next_trb ending info progress t) progress.records log.old result log.new }
{
    match ending {
        Ending::KeepCollecting | Ending::Fail(_, _) => progress,
        Ending::ReportBadTrb(_) => control_dropped::report_dropped(log, info, progress, t),
        Ending::Realize(given) => {
            let td = ControlTd {
                info,
                input: given.is_some(),
            };
            realize_trb(log, td, progress, t)
        }
    }
}

// Each of these TRBs has its turn so, from the first on.
pub fn end_held(log: &mut [u8], trbs: &[TransferTrb], ending: Ending, info: TdInfo) -> TdProgress
    requires { record_length * (2 * length trbs.now) ≤ length log.old }
    ensures { Meets (walk (next_trb ending info) never at_start trbs.now) 0 log.old result log.new }
{
    let mut progress = td_part::at_start_of_td();
    for t in trbs {
        progress = next_trb(log, ending, info, progress, *t);
    }
    progress
}
