// What was submitted to the control endpoint, completed; ports `next_completion` of `ControlEndpointHandle`.
#![tactic(auto)]

ghost use Rattle.std.specs.Prelude.{length};
ghost use Rattle.control_endpoint.specs.Completion.{Completes};

use control_block::{ControlBlock, Ending};
use control_endpoint::Completed;
use trb::{ControlRequestProcessingResult, ControlSubmissionState};

// Completes the TRB that was submitted last. With SuccessfulControlIn the device's bytes are `data`, of which only the length is read.
// The block is changed where it lies: copies of it are most of what a call costs.
pub fn next_completion(
    log: &mut [u8],
    mut block: ControlBlock,
    res: Option<ControlRequestProcessingResult>,
    data: &[u8],
) -> Completed
    ensures { Completes block res (length «data».now) log.old result log.new }
{
    let facts = control_block::facts_of(&block);
    let asked = control_questions::ask_completion(log.len(), facts, res, data.len());
    match asked {
        Err(refusal) => Completed {
            answer: Err(refusal),
            records: 0,
            block,
        },
        Ok(()) => {
            let ending = control_block::ending_of(block.state, res, data.len() as u32);
            let info = control_ending::info_of(ending, block.endpoint_id, block.slot_id);
            let freed = control_block::places_freed(ending, block.held);
            let ended = &block.trbs[..freed];
            let progress = control_turn::end_held(log, ended, ending, info);
            let error_address = control_block::error_address(&block);
            let records = control_ending::log_ending(
                log,
                progress.records,
                ending,
                error_address,
                block.endpoint_id,
                block.slot_id,
            );
            block.transfer.phase = control_block::phase_behind(block.state, block.transfer.phase);
            block.state = ControlSubmissionState::NoTrbSubmitted;
            match ending {
                Ending::KeepCollecting => {}
                _ => control_block::empty(&mut block),
            }
            Completed {
                answer: Ok(control_block::result_of(ending)),
                records,
                block,
            }
        }
    }
}
