// The IN endpoint: what its calls are, by definition; creation, cancel, and what a completion answers and reports; ports
// `TdBasedInEndpointHandle`.
#![tactic(auto)]

ghost use Rattle.std.specs.Prelude.{◌≡◌, [], ◌∷◌, ◌≤◌, length};
ghost use Rattle.trb.specs.Limits.{min_log};
ghost use Rattle.call_log.specs.Calls.{Put};
ghost use Rattle.in_endpoint.specs.Creation.{Creates, cancelled};
ghost use Rattle.in_endpoint.specs.Completion.{unsupported_event, completion_answer};

use in_block::InBlock;
use in_td::InMode;
use trb::{
    Answer, CompletionAnswer, CompletionCode, EndpointId, Refusal, SlotId,
    TdBasedNormalSubmissionState, TrbProcessingResult,
};

pub type Created = trb::Created<InBlock>;

pub type Submitted = trb::Submitted<InBlock>;

pub type Completed = trb::Completed<InBlock>;

// ---- Creation

// A fresh block for this endpoint of this slot, in this mode.
// As `control_endpoint::create`: what the two share is one question; what is made is of two types, by two definitions.
#[tactic(auto, unfolding(crate::specs::Creation::creation, trb::specs::Questions::first_no, trb::specs::Answers::refusal_of))]
pub fn create(endpoint_id: EndpointId, slot_id: SlotId, mode: InMode) -> Created
    ensures { Creates endpoint_id slot_id mode result }
{
    if trb::ids_in_range(endpoint_id, slot_id) {
        Created {
            answer: Ok(()),
            block: in_block::fresh(endpoint_id, slot_id, mode),
        }
    } else {
        Created {
            answer: Err(Refusal::IdOutOfRange),
            block: in_block::fresh(EndpointId(0), SlotId(0), mode),
        }
    }
}

// ---- Completion

// Reports the TRB at `addr`, which was of an unsupported kind.
// That the log is long enough is what question 1 asked of the caller's slice: behind it only a type made for this call could say so.
pub fn report_unsupported(log: &mut [u8], addr: u64, endpoint_id: EndpointId, slot_id: SlotId)
    requires { min_log ≤ length log.old }
    ensures { Put log.old 0 (unsupported_event addr endpoint_id slot_id ∷ []) log.new }
{
    let event = call_log::transfer_event(
        addr,
        0,
        CompletionCode::TrbError,
        false,
        endpoint_id,
        slot_id,
    );
    call_log::put_record(log, 0, event);
}

// What a completion answers to the questions, where its result is this.
pub fn completion_answer(asked: Answer, res: TrbProcessingResult) -> CompletionAnswer
    ensures { result ≡ completion_answer asked res }
{
    asked?;
    Ok(res)
}

// ---- Cancel

// Nothing is held any more, whatever the block held, and a submission is due; ports `cancel`.
pub fn cancel(mut block: InBlock) -> InBlock
    ensures { result ≡ cancelled block }
{
    in_block::empty(&mut block, TdBasedNormalSubmissionState::SubmissionDue);
    block
}
