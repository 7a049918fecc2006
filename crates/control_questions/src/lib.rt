// The questions asked on a control endpoint, in the order of document 01, over the facts of its block.
#![tactic(auto)]

ghost use Rattle.std.specs.Prelude.{◌≡◌, ◌+◌, ◌≤◌, true, not, ◌||◌, if◌then◌else◌, nat_le};
ghost use Rattle.trb.specs.Answers.{number_of};
ghost use Rattle.trb.specs.Limits.{max_held, max_collected};
ghost use Rattle.trb.specs.Questions.{first_no};
ghost use Rattle.trb.specs.declared.TransferTrb.{TransferTrb};
ghost use Rattle.phase_table.specs.Outcomes.{holds};
ghost use Rattle.control_transfer.specs.Data.{data_of, size_of};
ghost use Rattle.control_questions.specs.Completion.{completion_questions};
ghost use Rattle.control_questions.specs.Submission.{held_questions, trb_questions, submission_questions};

use control_block::BlockFacts;
use control_transfer::TrbData;
use guest_memory::Regions;
use phase_table::Outcome;
use trb::{Answer, ControlRequestProcessingResult, Refusal};

// ---- Submission

// Question 21, of a TRB that is held: in an IN transfer, is its data not immediate?
fn is_from_memory(input: bool, immediate: bool) -> bool
    ensures { result ≡ (not input || not immediate) }
{
    !input || !immediate
}

// Question 5, of a TRB that is held: is there a place for it?
fn has_place(restart: bool, held: usize) -> bool
    requires { held ≤ max_held }
    ensures { result ≡ nat_le (if restart then 1 else held + 1) max_held }
{
    restart || held + 1 <= trb::MAX_HELD
}

// Question 7, of a TRB that is held: on OUT, would the collected count be at most 65,535?
fn is_few(input: bool, collected: usize, data: TrbData) -> bool
    requires { collected ≤ max_collected }
    ensures { result ≡ (input || nat_le (collected + size_of «data») max_collected) }
{
    input || collected + control_transfer::size_of(data) as usize <= trb::MAX_COLLECTED
}

// Questions 21 and 5 to 7, of a TRB that is held and moves this data.
#[tactic(auto, unfolding(trb::specs::Questions::first_no, crate::specs::Submission::has_room, crate::specs::Submission::reaches, control_transfer::specs::Transfers::collects))]
fn ask_of_held(facts: BlockFacts, outcome: Outcome, data: TrbData, regions: Regions) -> Answer
    requires { (holds outcome ≡ true) × ((facts.held ≤ max_held) × (facts.collected ≤ max_collected)) }
    ensures { number_of result ≡ first_no (held_questions facts outcome «data» regions) }
{
    let input = facts.direction;
    trb::ask(
        is_from_memory(input, data.immediate_data),
        Refusal::ImmediateInput,
    )?;
    trb::ask(
        has_place(phase_table::is_restart(outcome), facts.held),
        Refusal::TooManyHeld,
    )?;
    trb::ask(
        control_transfer::is_in_reach(input, data, regions),
        Refusal::OutsideGuestMemory,
    )?;
    trb::ask(
        is_few(input, facts.collected, data),
        Refusal::TooMuchCollected,
    )
}

// Questions 4, 21 and 5 to 7, of a TRB that moves this data.
#[tactic(auto, unfolding(trb::specs::Questions::first_no, crate::specs::Submission::has_room, crate::specs::Submission::reaches, control_transfer::specs::Transfers::collects))]
fn ask_of_trb(facts: BlockFacts, outcome: Outcome, data: TrbData, regions: Regions) -> Answer
    requires { (facts.held ≤ max_held) × (facts.collected ≤ max_collected) }
    ensures { number_of result ≡ first_no (trb_questions facts outcome «data» regions) }
{
    trb::ask(
        data.transfer_length <= trb::MAX_TRANSFER_LENGTH,
        Refusal::TransferTooLong,
    )?;
    if phase_table::is_held(outcome) {
        ask_of_held(facts, outcome, data, regions)
    } else {
        Ok(())
    }
}

// Questions 1, 13, 2 to 4, 21 and 5 to 7, of a log and a collect buffer of these lengths, guest memory in these regions, and a TRB that
// becomes this and moves this data.
#[tactic(auto, unfolding(trb::specs::Questions::first_no, crate::specs::Submission::submission_questions))]
pub fn ask_submission(
    log_length: usize,
    collect_length: usize,
    facts: BlockFacts,
    outcome: Outcome,
    data: TrbData,
    regions: Regions,
) -> Answer
    ensures { (t : TransferTrb) → «data» ≡ data_of t.variant → number_of result ≡ first_no (submission_questions log_length collect_length facts outcome t regions) }
{
    trb::ask(
        trb::MIN_LOG <= log_length && trb::MAX_COLLECTED <= collect_length,
        Refusal::BufferTooShort,
    )?;
    trb::ask(
        !guest_memory::share_an_address(regions),
        Refusal::RegionsOverlap,
    )?;
    trb::ask(control_block::is_sound(facts), Refusal::UnsoundBlock)?;
    trb::ask(
        control_block::submission_due(facts.state),
        Refusal::OutOfTurn,
    )?;
    ask_of_trb(facts, outcome, data, regions)
}

// ---- Completion

// Questions 1, 2, 3, 8 and 9, of a log and device data of these lengths.
// As on the other endpoint: over facts of both types it would take a trait with three methods and their laws, for five questions.
#[tactic(auto, unfolding(trb::specs::Questions::first_no, crate::specs::Completion::completion_questions))]
pub fn ask_completion(
    log_length: usize,
    facts: BlockFacts,
    res: Option<ControlRequestProcessingResult>,
    data_length: usize,
) -> Answer
    ensures { number_of result ≡ first_no (completion_questions log_length facts res data_length) }
{
    trb::ask(trb::MIN_LOG <= log_length, Refusal::BufferTooShort)?;
    trb::ask(control_block::is_sound(facts), Refusal::UnsoundBlock)?;
    trb::ask(
        !control_block::submission_due(facts.state),
        Refusal::OutOfTurn,
    )?;
    trb::ask(
        res.is_some() == control_block::awaits_device(facts.state),
        Refusal::DeviceResultMismatch,
    )?;
    trb::ask(data_length <= trb::MAX_DATA, Refusal::DataTooLong)
}
