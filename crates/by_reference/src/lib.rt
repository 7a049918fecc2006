// Submission, completion and cancel of the two endpoints, with the block lent and updated where it is: the layers of `lent_laws` over the
// functions by value.
#![tactic(auto)]

ghost use Rattle.std.specs.Prelude.{◌≡◌, length};
ghost use Rattle.guest_memory.specs.Places.{regions_of};
ghost use Rattle.guest_memory.specs.Lent.{seen};
ghost use Rattle.in_endpoint.specs.Creation.{cancelled};
ghost use Rattle.in_endpoint.specs.Submission.{Submits as SubmitsIn};
ghost use Rattle.in_endpoint.specs.Completion.{Completes as CompletesIn};
ghost use Rattle.control_endpoint.specs.Submission.{Submits as SubmitsControl};
ghost use Rattle.control_endpoint.specs.Completion.{Completes as CompletesControl};
ghost use Rattle.by_reference.specs.Outcomes.{in_submitted, in_completed, control_submitted, control_completed};

use control_block::ControlBlock;
use guest_memory::GuestView;
use in_block::InBlock;
use trb::{
    Answer, CompletionAnswer, ControlRequestProcessingResult, InTrbProcessingStatus, Logged,
    TransferTrb,
};

pub type SubmissionOutcome = Logged<Answer>;

pub type CompletionOutcome = Logged<CompletionAnswer>;

// ---- IN endpoint

// `in_submission::submit_trb` of the block that is lent, which becomes the one of its answer.
pub fn in_submit_trb(
    log: &mut [u8],
    block: &mut InBlock,
    t: TransferTrb,
    memory: &GuestView<'_>,
) -> SubmissionOutcome
    ensures { SubmitsIn block.old t (regions_of (seen memory.now)) log.old (in_submitted result block.new) log.new }
{
    lent_laws::submission_layer(log, block, t, memory, in_submission::submit_trb)
}

// `in_completion::next_completion`, likewise.
pub fn in_next_completion(
    log: &mut [u8],
    block: &mut InBlock,
    res: Option<InTrbProcessingStatus>,
    data: &[u8],
) -> CompletionOutcome
    ensures { CompletesIn block.old res (length «data».now) log.old (in_completed result block.new) log.new }
{
    lent_laws::completion_layer(log, block, res, data, in_completion::next_completion)
}

// `in_endpoint::cancel`, likewise.
pub fn in_cancel(block: &mut InBlock)
    ensures { block.new ≡ cancelled block.old }
{
    lent_laws::cancel_layer(block, in_endpoint::cancel);
}

// ---- Control endpoint

// `control_submission::submit_trb` of the block that is lent, which becomes the one of its answer.
pub fn control_submit_trb(
    log: &mut [u8],
    collect: &mut [u8],
    block: &mut ControlBlock,
    t: TransferTrb,
    memory: &GuestView<'_>,
) -> SubmissionOutcome
    ensures { SubmitsControl block.old t (seen memory.now) log.old collect.old (control_submitted result block.new) log.new collect.new }
{
    lent_laws::collecting_layer(
        log,
        collect,
        block,
        t,
        memory,
        control_submission::submit_trb,
    )
}

// `control_completion::next_completion`, likewise.
pub fn control_next_completion(
    log: &mut [u8],
    block: &mut ControlBlock,
    res: Option<ControlRequestProcessingResult>,
    data: &[u8],
) -> CompletionOutcome
    ensures { CompletesControl block.old res (length «data».now) log.old (control_completed result block.new) log.new }
{
    lent_laws::completion_layer(log, block, res, data, control_completion::next_completion)
}

// `control_endpoint::cancel`, likewise.
pub fn control_cancel(block: &mut ControlBlock)
    ensures { block.new ≡ block.old }
{
    lent_laws::cancel_layer(block, control_endpoint::cancel);
}
