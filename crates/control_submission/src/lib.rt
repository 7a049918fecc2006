// A TRB submitted to the control endpoint; ports `submit_trb` of `ControlEndpointHandle`.
#![tactic(auto)]

ghost use Rattle.guest_memory.specs.Lent.{seen};
ghost use Rattle.control_endpoint.specs.Submission.{Submits};

use control_block::{ControlBlock, Ending};
use control_endpoint::Submitted;
use guest_memory::GuestView;
use td_part::TdInfo;
use trb::TransferTrb;

// Takes a TRB. The block is changed where it lies: copies of it are most of what a call costs.
pub fn submit_trb(
    log: &mut [u8],
    collect: &mut [u8],
    mut block: ControlBlock,
    t: TransferTrb,
    memory: &GuestView<'_>,
) -> Submitted
    ensures { Submits block t (seen memory.now) log.old collect.old result log.new collect.new }
{
    let facts = control_block::facts_of(&block);
    let regions = memory.regions();
    let outcome = phase_table::trb_outcome(block.transfer.phase, t.variant);
    let data = control_transfer::data_of(t.variant);
    let answer = control_questions::ask_submission(
        log.len(),
        collect.len(),
        facts,
        outcome,
        data,
        regions,
    );
    match answer {
        Err(_) => Submitted {
            answer,
            records: 0,
            block,
        },
        Ok(()) => {
            let info = TdInfo {
                endpoint_id: block.endpoint_id,
                slot_id: block.slot_id,
                data_length: 0,
            };
            let restarts = phase_table::is_restart(outcome);
            let dropped = control_endpoint::places_dropped(restarts, block.held);
            let reported = Ending::ReportBadTrb(0);
            let ended = &block.trbs[..dropped];
            let progress = control_turn::end_held(log, ended, reported, info);
            let records = control_transfer::log_request(
                log,
                progress.records,
                outcome,
                block.transfer.request,
                block.endpoint_id,
                block.slot_id,
            );
            control_transfer::collect_data(
                collect,
                outcome,
                block.transfer.direction,
                block.transfer.collected,
                data,
                memory,
            );
            let before = block.transfer;
            let transfer = control_transfer::transfer_after(outcome, before, t.variant, t.addr);
            if restarts {
                control_block::empty(&mut block);
            }
            if phase_table::is_held(outcome) {
                control_block::store(&mut block, t);
            }
            block.transfer = transfer;
            block.state = phase_table::state_after(outcome, t.addr);
            Submitted {
                answer,
                records,
                block,
            }
        }
    }
}
