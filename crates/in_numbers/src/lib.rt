// A submission on an IN endpoint, of a TRB that is given by numbers: the questions of in_questions and the outcome of in_block, without a
// decoded TRB between.
#![tactic(auto)]

ghost use Rattle.std.specs.Prelude.{◌≡◌, cond, not, eqb, ◌≤◌};
ghost use Rattle.trb.specs.Answers.{number_of};
ghost use Rattle.trb.specs.Limits.{max_held};
ghost use Rattle.trb.specs.Questions.{first_no};
ghost use Rattle.trb.specs.Trbs.{chain_of};
ghost use Rattle.in_block.specs.Outcomes.{outcome_of};
ghost use Rattle.in_block.specs.declared.HeldTest.{HeldTest};
ghost use Rattle.in_block.specs.declared.Outcome.TheVariants.{Collect, CompleteLocally, Request};
ghost use Rattle.in_questions.specs.Questions.{trb_questions, submission_questions};
ghost use Rattle.held_bytes.specs.Numbers.{normal_of, trb_of};
ghost use Rattle.trb.specs.declared.TransferTrbVariant.TheVariants.{Normal};

use guest_memory::Regions;
use held_bytes::TrbNumbers;
use in_block::{BlockFacts, Outcome};
use trb::{Answer, Refusal};

// Questions 4, 21, 5 and 6, of a Normal behind `held` others.
#[tactic(auto, unfolding(trb::specs::Questions::first_no))]
pub fn ask_of_normal(held: usize, numbers: TrbNumbers, regions: Regions) -> Answer
    requires { held ≤ max_held }
    ensures { number_of result ≡ first_no (trb_questions held (Normal (normal_of numbers.flags numbers.value numbers.transfer_length)) regions) }
{
    trb::ask(
        numbers.transfer_length <= trb::MAX_TRANSFER_LENGTH,
        Refusal::TransferTooLong,
    )?;
    trb::ask(
        !held_bytes::bit(numbers.flags, held_bytes::IMMEDIATE_DATA),
        Refusal::ImmediateInput,
    )?;
    trb::ask(held < trb::MAX_HELD, Refusal::TooManyHeld)?;
    trb::ask(
        guest_memory::range_inside(regions, numbers.value, numbers.transfer_length),
        Refusal::OutsideGuestMemory,
    )
}

// Questions 4, 21, 5 and 6, of a TRB behind `held` others. Of any other than a Normal or Data Stage there is no length to ask about.
#[tactic(auto, unfolding(held_bytes::specs::Numbers::variant_of, trb::specs::Questions::first_no))]
fn ask_of_trb(held: usize, numbers: TrbNumbers, regions: Regions) -> Answer
    requires { held ≤ max_held }
    ensures { number_of result ≡ first_no (trb_questions held (trb_of numbers).variant regions) }
{
    match numbers.kind {
        raw_trb::NORMAL => ask_of_normal(held, numbers, regions),
        raw_trb::DATA_STAGE => trb::ask(
            numbers.transfer_length <= trb::MAX_TRANSFER_LENGTH,
            Refusal::TransferTooLong,
        ),
        raw_trb::EVENT_DATA | raw_trb::NO_OP => {
            trb::ask(held < trb::MAX_HELD, Refusal::TooManyHeld)
        }
        _ => Ok(()),
    }
}

// Questions 1, 13, 2 to 4, 21, 5 and 6, of a log of this length and guest memory in these regions.
#[tactic(auto, unfolding(trb::specs::Questions::first_no, in_questions::specs::Questions::submission_questions))]
pub fn ask_submission(
    log_length: usize,
    facts: BlockFacts,
    numbers: TrbNumbers,
    regions: Regions,
) -> Answer
    ensures { number_of result ≡ first_no (submission_questions log_length facts (trb_of numbers) regions) }
{
    trb::ask(trb::MIN_LOG <= log_length, Refusal::BufferTooShort)?;
    trb::ask(
        !guest_memory::share_an_address(regions),
        Refusal::RegionsOverlap,
    )?;
    trb::ask(in_block::is_sound(facts), Refusal::UnsoundBlock)?;
    trb::ask(in_block::submission_due(facts.state), Refusal::OutOfTurn)?;
    ask_of_trb(facts.held, numbers, regions)
}

// ---- What becomes of the TRB

// The chain bit; of a kind without one, off.
#[tactic(auto, unfolding(held_bytes::specs::Numbers::variant_of))]
pub fn chain_of(numbers: TrbNumbers) -> bool
    ensures { result ≡ chain_of (trb_of numbers).variant }
{
    let known = matches!(
        numbers.kind,
        raw_trb::NORMAL
            | raw_trb::EVENT_DATA
            | raw_trb::NO_OP
            | raw_trb::DATA_STAGE
            | raw_trb::STATUS_STAGE
    );
    known && held_bytes::bit(numbers.flags, held_bytes::CHAIN)
}

// Of a TRB that is held: with chain off it ends a TD, with a Normal or without.
fn outcome_of_held(chain: bool, has_normal: bool) -> Outcome
    ensures { result ≡ cond chain Collect (cond has_normal Request CompleteLocally) }
{
    if chain {
        Outcome::Collect
    } else if has_normal {
        Outcome::Request
    } else {
        Outcome::CompleteLocally
    }
}

// Of a TRB behind those held, of which one is a Normal or none is.
#[tactic(auto, unfolding(held_bytes::specs::Numbers::variant_of, in_block::specs::Outcomes::outcome_of))]
pub fn outcome_of(has_normal: bool, numbers: TrbNumbers) -> Outcome
    ensures { (found : HeldTest) → eqb found.normals 0 ≡ not has_normal → result ≡ outcome_of found (trb_of numbers) }
{
    let chain = held_bytes::bit(numbers.flags, held_bytes::CHAIN);
    match numbers.kind {
        raw_trb::NORMAL => outcome_of_held(chain, true),
        raw_trb::EVENT_DATA | raw_trb::NO_OP => outcome_of_held(chain, has_normal),
        _ => Outcome::Drop,
    }
}
