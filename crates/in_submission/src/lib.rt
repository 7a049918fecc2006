// A TRB submitted to the IN endpoint; ports `submit_trb` of `TdBasedInEndpointHandle`.
#![tactic(auto)]

ghost use Rattle.std.specs.Prelude.{[], ◌∷◌, ◌<◌, ◌≤◌, ◌^◌, length};
ghost use Rattle.trb.specs.Limits.{min_log};
ghost use Rattle.call_log.specs.Calls.{Put};
ghost use Rattle.guest_memory.specs.Places.{regions_of};
ghost use Rattle.guest_memory.specs.Lent.{seen};
ghost use Rattle.in_td.specs.Normals.{requested};
ghost use Rattle.in_endpoint.specs.Submission.{request_of, Submits};

use guest_memory::GuestView;
use in_block::{InBlock, Outcome};
use in_endpoint::Submitted;
use trb::{EndpointId, SlotId, TransferTrb};

// Logs the request of the TD that these TRBs are.
// That the log is long enough is what question 1 asked of the caller's slice: behind it only a type made for this call could say so.
fn log_request(log: &mut [u8], trbs: &[TransferTrb], endpoint_id: EndpointId, slot_id: SlotId)
    requires { (min_log ≤ length log.old) × ((0 < length trbs.now) × (requested trbs.now < 2 ^ 32)) }
    ensures { Put log.old 0 (request_of trbs.now endpoint_id slot_id ∷ []) log.new }
{
    let length = in_request::requested_length(trbs);
    let request = call_log::in_request(trbs[0].addr, length, endpoint_id, slot_id);
    call_log::put_record(log, 0, request);
}

// Takes a TRB; ports `submit_trb`. Of guest memory only the regions' bases and lengths are read. The block is changed where it lies: copies
// of it are most of what a call costs.
pub fn submit_trb(
    log: &mut [u8],
    mut block: InBlock,
    t: TransferTrb,
    memory: &GuestView<'_>,
) -> Submitted
    ensures { Submits block t (regions_of (seen memory.now)) log.old result log.new }
{
    let facts = in_block::facts_of(&block);
    let regions = memory.regions();
    let answer = in_questions::ask_submission(log.len(), facts, t, regions);
    match answer {
        Err(_) => Submitted {
            answer,
            records: 0,
            block,
        },
        Ok(()) => {
            let outcome = in_block::outcome_of(facts.found, t);
            let state = in_block::state_after(outcome, t.addr);
            block.state = state;
            let mut records = 0;
            match outcome {
                Outcome::Drop => in_block::empty(&mut block, state),
                Outcome::Collect | Outcome::CompleteLocally => in_block::store(&mut block, t),
                Outcome::Request => {
                    in_block::store(&mut block, t);
                    let td = in_block::held_of(&block);
                    log_request(log, td, block.endpoint_id, block.slot_id);
                    records = 1;
                }
            }
            Submitted {
                answer,
                records,
                block,
            }
        }
    }
}
