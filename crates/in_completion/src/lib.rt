// What was submitted to the IN endpoint, completed; ports `next_completion` of `TdBasedInEndpointHandle`.
#![tactic(auto)]

ghost use Rattle.std.specs.Prelude.{length};
ghost use Rattle.in_endpoint.specs.Completion.{Completes};

use in_block::{Ending, InBlock};
use in_endpoint::Completed;
use trb::{InTrbProcessingStatus, TdBasedNormalSubmissionState, TrbProcessingResult};

// Completes what was submitted last; ports `next_completion`. Of the device's data only the length is read. The block is changed where it
// lies: copies of it are most of what a call costs.
pub fn next_completion(
    log: &mut [u8],
    mut block: InBlock,
    res: Option<InTrbProcessingStatus>,
    data: &[u8],
) -> Completed
    ensures { Completes block res (length «data».now) log.old result log.new }
{
    let facts = in_block::facts_of(&block);
    let asked = in_questions::ask_completion(log.len(), facts, res, data.len());
    match asked {
        Err(refusal) => Completed {
            answer: Err(refusal),
            records: 0,
            block,
        },
        Ok(()) => {
            let ending = in_block::ending_of(block.state, res, data.len() as u32);
            let due = TdBasedNormalSubmissionState::SubmissionDue;
            match ending {
                Ending::KeepCollecting => {
                    block.state = due;
                    Completed {
                        answer: Ok(TrbProcessingResult::Ok),
                        records: 0,
                        block,
                    }
                }
                Ending::Transfer(status, data_length) => {
                    let td = in_td::td_of(
                        block.endpoint_id,
                        block.slot_id,
                        block.mode,
                        status,
                        data_length,
                    );
                    let trbs = in_block::held_of(&block);
                    let processed = in_turn::process_td(log, td, facts.found.normals, trbs);
                    in_block::empty(&mut block, due);
                    Completed {
                        answer: Ok(processed.result),
                        records: processed.progress.records,
                        block,
                    }
                }
                Ending::ReportUnsupported(addr) => {
                    in_endpoint::report_unsupported(log, addr, block.endpoint_id, block.slot_id);
                    in_block::empty(&mut block, due);
                    Completed {
                        answer: Ok(TrbProcessingResult::TrbError),
                        records: 1,
                        block,
                    }
                }
            }
        }
    }
}
