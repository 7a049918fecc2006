// What a call in place asks of the block that its bytes are: its state, the facts about it, and the questions of submission and completion.
#![tactic(auto)]

ghost use Rattle.std.specs.Prelude.{◌≡◌, true, ◌<◌, ◌≤◌, length};
ghost use Rattle.trb.specs.Answers.{number_of};
ghost use Rattle.trb.specs.Questions.{first_no};
ghost use Rattle.in_block.specs.Facts.{facts_of};
ghost use Rattle.in_questions.specs.Questions.{submission_questions, completion_questions};
ghost use Rattle.held_bytes.specs.Numbers.{trb_of};
ghost use Rattle.in_bytes.specs.Layout.{block_length, block_of};
ghost use Rattle.in_place_questions.specs.Lent.{SameFacts, SoundIn};

use guest_memory::Regions;
use held_bytes::TrbNumbers;
use in_block::{BlockFacts, HeldTest};
use trb::{Answer, InTrbProcessingStatus, TdBasedNormalSubmissionState};

// The state of the block.
#[tactic(auto, unfolding(in_bytes::specs::Layout::block_of))]
pub fn state_of(block: &[u8]) -> TdBasedNormalSubmissionState
    requires { block_length ≤ length block.now }
    ensures { result ≡ (block_of block.now).state }
{
    in_bytes::state_of(
        block[in_bytes::STATE_AT],
        buffers::le64(block, in_bytes::ADDRESS_AT),
    )
}

// What the questions ask about. Of the TRBs held it is enough to know whether a block that awaits the device has a Normal: so the facts are
// given one by one, and not by `in_block::facts_of` of a block.
pub fn facts_of(block: &[u8]) -> BlockFacts
    requires { block_length ≤ length block.now }
    ensures { SameFacts result (facts_of (block_of block.now)) }
{
    let state = state_of(block);
    let places = in_bytes::held_places(block);
    let has_normal = in_block::awaits_device(state) && in_bytes::has_normal(places);
    BlockFacts {
        endpoint_id: in_bytes::endpoint_id(block),
        slot_id: in_bytes::slot_id(block),
        state,
        held: in_bytes::held(block) as usize,
        found: HeldTest {
            sound: true,
            normals: has_normal as usize,
        },
    }
}

// Is the block sound, and in the state of this number, in which no device is awaited? No place is looked at.
pub fn is_sound_in(number: u8, block: &[u8]) -> bool
    requires { (block_length ≤ length block.now) × (number < 2) }
    ensures { result ≡ true → SoundIn number block.now }
{
    block[in_bytes::STATE_AT] == number
        && in_bytes::held(block) as usize <= trb::MAX_HELD
        && trb::ids_in_range(in_bytes::endpoint_id(block), in_bytes::slot_id(block))
}

// Questions 1, 13, 2 to 4, 21, 5 and 6, of the block that the bytes are.
pub fn ask_submission(
    log_length: usize,
    block: &[u8],
    numbers: TrbNumbers,
    regions: Regions,
) -> Answer
    requires { block_length ≤ length block.now }
    ensures { number_of result ≡ first_no (submission_questions log_length (facts_of (block_of block.now)) (trb_of numbers) regions) }
{
    let facts = facts_of(block);
    in_numbers::ask_submission(log_length, facts, numbers, regions)
}

// Questions 1, 2, 3, 8 and 9, of the block that the bytes are.
pub fn ask_completion(
    log_length: usize,
    block: &[u8],
    res: Option<InTrbProcessingStatus>,
    data_length: usize,
) -> Answer
    requires { block_length ≤ length block.now }
    ensures { number_of result ≡ first_no (completion_questions log_length (facts_of (block_of block.now)) res data_length) }
{
    let facts = facts_of(block);
    in_questions::ask_completion(log_length, facts, res, data_length)
}
