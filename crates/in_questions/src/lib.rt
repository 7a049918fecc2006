// The questions asked on an IN endpoint, in the order of document 01, over facts of the block and plain values.
#![tactic(auto)]

ghost use Rattle.std.specs.Prelude.{◌≡◌, ◌≤◌};
ghost use Rattle.trb.specs.Answers.{number_of};
ghost use Rattle.trb.specs.Limits.{max_held};
ghost use Rattle.trb.specs.Questions.{first_no};
ghost use Rattle.in_questions.specs.Questions.{trb_questions, submission_questions, completion_questions};

use guest_memory::Regions;
use held::EndpointKind;
use in_block::BlockFacts;
use trb::{Answer, InTrbProcessingStatus, Refusal, TransferTrb, TransferTrbVariant};

// Questions 4, 21, 5 and 6, of a TRB behind `held` others.
#[tactic(auto, unfolding(trb::specs::Questions::first_no))]
pub fn ask_of_trb(held: usize, variant: TransferTrbVariant, regions: Regions) -> Answer
    requires { held ≤ max_held }
    ensures { number_of result ≡ first_no (trb_questions held variant regions) }
{
    trb::ask(
        trb::transfer_length(variant) <= trb::MAX_TRANSFER_LENGTH,
        Refusal::TransferTooLong,
    )?;
    if !held::supports(EndpointKind::In, variant) {
        return Ok(());
    }
    trb::ask(!trb::immediate_data(variant), Refusal::ImmediateInput)?;
    trb::ask(held < trb::MAX_HELD, Refusal::TooManyHeld)?;
    trb::ask(
        in_request::in_guest_memory(variant, regions),
        Refusal::OutsideGuestMemory,
    )
}

// Questions 1, 13, 2 to 4, 21, 5 and 6, of a log of this length and guest memory in these regions.
#[tactic(auto, unfolding(trb::specs::Questions::first_no, crate::specs::Questions::submission_questions))]
pub fn ask_submission(
    log_length: usize,
    facts: BlockFacts,
    t: TransferTrb,
    regions: Regions,
) -> Answer
    ensures { number_of result ≡ first_no (submission_questions log_length facts t regions) }
{
    trb::ask(trb::MIN_LOG <= log_length, Refusal::BufferTooShort)?;
    trb::ask(
        !guest_memory::share_an_address(regions),
        Refusal::RegionsOverlap,
    )?;
    trb::ask(in_block::is_sound(facts), Refusal::UnsoundBlock)?;
    trb::ask(in_block::submission_due(facts.state), Refusal::OutOfTurn)?;
    ask_of_trb(facts.held, t.variant, regions)
}

// Questions 1, 2, 3, 8 and 9, of a log and device data of these lengths.
// As on the other endpoint: over facts of both types it would take a trait with three methods and their laws, for five questions.
#[tactic(auto, unfolding(trb::specs::Questions::first_no, crate::specs::Questions::completion_questions))]
pub fn ask_completion(
    log_length: usize,
    facts: BlockFacts,
    res: Option<InTrbProcessingStatus>,
    data_length: usize,
) -> Answer
    ensures { number_of result ≡ first_no (completion_questions log_length facts res data_length) }
{
    trb::ask(trb::MIN_LOG <= log_length, Refusal::BufferTooShort)?;
    trb::ask(in_block::is_sound(facts), Refusal::UnsoundBlock)?;
    trb::ask(!in_block::submission_due(facts.state), Refusal::OutOfTurn)?;
    trb::ask(
        res.is_some() == in_block::awaits_device(facts.state),
        Refusal::DeviceResultMismatch,
    )?;
    trb::ask(data_length <= trb::MAX_DATA, Refusal::DataTooLong)
}
