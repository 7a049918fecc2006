// The TRBs of a control transfer that succeeded as its completion comes, each by its kind; ports the parts of `realize_control_chain`.
#![tactic(auto)]

ghost use Rattle.std.specs.Prelude.{◌≡◌, ◌+◌, ◌*◌, ◌≤◌, length};
ghost use Rattle.trb.specs.Limits.{record_length};
ghost use Rattle.call_log.specs.Calls.{Meets};
ghost use Rattle.td_part.specs.Parts.{Within};
ghost use Rattle.control_chain.specs.Chain.{edtla_zeroed, move_out, move_data, realize_stage, realize_data_stage, realize_normal};

use td_part::{TdInfo, TdProcessingState, TdProgress, TrbDmaInfo};
use trb::{DataStageTrb, NormalTrb};

// What stays the same over a control transfer. With SuccessfulControlIn there is device data: `input` is on.
#[derive(Clone, Copy)]
pub struct ControlTd {
    pub info: TdInfo,
    pub input: bool,
}

// The progress with an EDTLA of 0: a stage begins.
fn zero_edtla(progress: TdProgress) -> TdProgress
    ensures { result ≡ edtla_zeroed progress }
{
    TdProgress {
        edtla: 0,
        ..progress
    }
}

// The device took the TRB's bytes, all of them; ports `realize_dma_trb` with no data.
#[tactic(auto, unfolding(crate::specs::Chain::move_out))]
fn move_out(log: &mut [u8], info: TdInfo, progress: TdProgress, dma: TrbDmaInfo) -> TdProgress
    requires { record_length * (progress.records + 2) ≤ length log.old }
    ensures { Meets (move_out info progress dma) progress.records log.old result log.new }
{
    let edtla = td_part::edtla_after(progress.edtla, dma.transfer_length);
    td_report::report_success(
        log,
        info,
        progress,
        edtla,
        dma.interrupt_on_completion,
        dma.addr,
    )
}

// A TRB that moves data.
fn move_data(log: &mut [u8], td: ControlTd, progress: TdProgress, dma: TrbDmaInfo) -> TdProgress
    requires { (record_length * (progress.records + 2) ≤ length log.old) × Within td.info progress }
    ensures { Meets (move_data td progress dma) progress.records log.old result log.new }
{
    if td.input {
        td_data::realize_dma_trb(log, td.info, progress, dma)
    } else {
        move_out(log, td.info, progress, dma)
    }
}

// A Setup or StatusStage, which moves no bytes.
pub fn realize_stage(
    log: &mut [u8],
    info: TdInfo,
    progress: TdProgress,
    interrupt_on_completion: bool,
    addr: u64,
) -> TdProgress
    requires { record_length * (progress.records + 2) ≤ length log.old }
    ensures { Meets (realize_stage info progress interrupt_on_completion addr) progress.records log.old result log.new }
{
    td_report::report_success(log, info, progress, 0, interrupt_on_completion, addr)
}

// A DataStage moves its bytes even after a short TRB.
#[tactic(auto, unfolding(crate::specs::Chain::realize_data_stage))]
pub fn realize_data_stage(
    log: &mut [u8],
    td: ControlTd,
    progress: TdProgress,
    data_stage: DataStageTrb,
    addr: u64,
) -> TdProgress
    requires { (record_length * (progress.records + 2) ≤ length log.old) × Within td.info progress }
    ensures { Meets (realize_data_stage td progress data_stage addr) progress.records log.old result log.new }
{
    let dma = td_part::of_data_stage(data_stage, addr);
    move_data(log, td, zero_edtla(progress), dma)
}

// A Normal moves its bytes, or repeats the residual of the short TRB before it.
#[tactic(auto, unfolding(crate::specs::Chain::realize_normal))]
pub fn realize_normal(
    log: &mut [u8],
    td: ControlTd,
    progress: TdProgress,
    normal: NormalTrb,
    addr: u64,
) -> TdProgress
    requires { (record_length * (progress.records + 2) ≤ length log.old) × Within td.info progress }
    ensures { Meets (realize_normal td progress normal addr) progress.records log.old result log.new }
{
    match progress.state {
        TdProcessingState::Default => {
            let dma = td_part::of_normal(normal, addr);
            move_data(log, td, progress, dma)
        }
        TdProcessingState::ShortTransfer(missing) => td_report::repeat_short(
            log,
            td.info,
            progress,
            missing,
            normal.interrupt_on_completion,
            addr,
        ),
    }
}
