// A Normal's turn in the walk over an IN TD.
#![tactic(auto)]

ghost use Rattle.std.specs.Prelude.{true, ◌+◌, ◌*◌, ◌≤◌, length};
ghost use Rattle.trb.specs.Limits.{record_length};
ghost use Rattle.call_log.specs.Calls.{Meets};
ghost use Rattle.td_part.specs.Parts.{Within, of_normal, put_dma};
ghost use Rattle.in_td.specs.Td.{ends_with, ending_normal, handle_normal};

use in_td::{InTd, TdProcessed};
use td_part::{TdInfo, TdProcessingState, TdProgress, TrbDmaInfo};
use trb::{CompletionCode, InTrbProcessingStatus, NormalTrb, TrbProcessingResult};

// The Normal at which a transfer failed.
fn fail(
    log: &mut [u8],
    info: TdInfo,
    normals_left: usize,
    progress: TdProgress,
    dma: TrbDmaInfo,
    code: CompletionCode,
    res: TrbProcessingResult,
) -> TdProcessed
    requires { (record_length * (progress.records + 2) ≤ length log.old) × Within info progress }
    ensures { Meets (ends_with res normals_left (put_dma info progress dma true code)) progress.records log.old result log.new }
{
    TdProcessed {
        progress: td_data::put_dma(log, info, progress, dma, true, code),
        normals_left,
        result: res,
    }
}

// The Normal with which the device's bytes end: fewer than asked for or, of a transfer that fails at its last Normal, all of them.
fn ending_normal(
    log: &mut [u8],
    td: InTd,
    normals_left: usize,
    progress: TdProgress,
    normal: NormalTrb,
    addr: u64,
    cycle_bit: bool,
) -> TdProcessed
    requires { (record_length * (progress.records + 2) ≤ length log.old) × Within td.info progress }
    ensures { Meets (ending_normal td.status td.info normals_left progress normal addr cycle_bit) progress.records log.old result log.new }
{
    let dma = td_part::of_normal(normal, addr);
    match td.status {
        InTrbProcessingStatus::Disconnect => fail(
            log,
            td.info,
            normals_left,
            progress,
            dma,
            CompletionCode::UsbTransactionError,
            TrbProcessingResult::Disconnect,
        ),
        InTrbProcessingStatus::Stall => fail(
            log,
            td.info,
            normals_left,
            progress,
            dma,
            CompletionCode::StallError,
            TrbProcessingResult::StallAt(addr, cycle_bit),
        ),
        InTrbProcessingStatus::TransactionError => fail(
            log,
            td.info,
            normals_left,
            progress,
            dma,
            CompletionCode::UsbTransactionError,
            TrbProcessingResult::TransactionErrorAt(addr, cycle_bit),
        ),
        InTrbProcessingStatus::Success => in_td::going_on(
            normals_left,
            td_data::realize_dma_trb(log, td.info, progress, dma),
        ),
    }
}

// Ports `handle_normal_trb`.
#[tactic(auto, unfolding(in_td::specs::Td::handle_normal))]
pub fn handle_normal_trb(
    log: &mut [u8],
    td: InTd,
    so_far: TdProcessed,
    normal: NormalTrb,
    addr: u64,
    cycle_bit: bool,
) -> TdProcessed
    requires { (record_length * (so_far.progress.records + 2) ≤ length log.old) × Within td.info so_far.progress }
    ensures { Meets (handle_normal td so_far normal addr cycle_bit) so_far.progress.records log.old result log.new }
{
    let progress = so_far.progress;
    let behind = in_td::one_less(so_far.normals_left);
    match progress.state {
        TdProcessingState::Default => {
            let residual = td_part::residual_of(td.info, progress, normal.transfer_length);
            if in_td::is_done(td, so_far.normals_left, residual) {
                let dma = td_part::of_normal(normal, addr);
                let next = td_data::realize_dma_trb(log, td.info, progress, dma);
                in_td::going_on(behind, next)
            } else {
                ending_normal(log, td, behind, progress, normal, addr, cycle_bit)
            }
        }
        TdProcessingState::ShortTransfer(missing) => {
            let next = td_report::repeat_short(
                log,
                td.info,
                progress,
                missing,
                normal.interrupt_on_completion,
                addr,
            );
            in_td::going_on(behind, next)
        }
    }
}
