// The block of an IN endpoint: made, stored into, emptied, and the facts of it that the questions ask about; what becomes of a TRB
// that is submitted, and what a completion does.
#![tactic(auto)]

ghost use Rattle.std.specs.Prelude.{◌≡◌, ◌+◌, ◌<◌, min};
ghost use Rattle.trb.specs.Limits.{max_held};
ghost use Rattle.in_td.specs.Td.{is_normal, normal_count};
ghost use Rattle.in_block.specs.Blocks.{held_of, fresh_block, with_state, stored, emptied};
ghost use Rattle.in_block.specs.Facts.{trb_test, held_test, submission_due, awaits_device, facts_of, sound_block};
ghost use Rattle.in_block.specs.Outcomes.{outcome_of, state_after, ending_of};

use held::EndpointKind;
use in_td::InMode;
use trb::{
    EndpointId, InTrbProcessingStatus, SlotId, TdBasedNormalSubmissionState, TransferTrb,
    TransferTrbVariant,
};

#[derive(Clone, Copy)]
pub struct InBlock {
    pub endpoint_id: EndpointId,
    pub slot_id: SlotId,
    pub mode: InMode,
    pub state: TdBasedNormalSubmissionState,
    // Of the places, the first so many are held. A count and no `ArrayVec`: any count is a block, and question 2 asks for the bound.
    pub held: usize,
    pub trbs: [TransferTrb; trb::MAX_HELD],
}

// The TRBs that are held: no more than there are places.
pub fn held_of(block: &InBlock) -> &[TransferTrb]
    ensures { result.now ≡ held_of block.now }
{
    &block.trbs[..held::places_held(block.held)]
}

// A block that holds nothing, a submission due.
pub fn fresh(endpoint_id: EndpointId, slot_id: SlotId, mode: InMode) -> InBlock
    ensures { result ≡ fresh_block endpoint_id slot_id mode }
{
    InBlock {
        endpoint_id,
        slot_id,
        mode,
        state: TdBasedNormalSubmissionState::SubmissionDue,
        held: 0,
        trbs: [held::blank(); trb::MAX_HELD],
    }
}

// The block in another state.
pub fn with_state(block: InBlock, state: TdBasedNormalSubmissionState) -> InBlock
    ensures { result ≡ with_state block state }
{
    InBlock { state, ..block }
}

// One TRB more is held. As in `control_block`: shared it would be a struct of places and count, and every definition of a block of that.
pub fn store(block: &mut InBlock, t: TransferTrb)
    requires { block.old.held < max_held }
    ensures { block.new ≡ stored block.old t }
{
    block.trbs[block.held] = t;
    block.held += 1;
}

// Nothing is held any more, and the block is in this state.
pub fn empty(block: &mut InBlock, state: TdBasedNormalSubmissionState)
    ensures { block.new ≡ emptied block.old state }
{
    block.state = state;
    held::clear(&mut block.trbs, block.held);
    block.held = 0;
}

// Is a submission due in this state?
pub fn submission_due(state: TdBasedNormalSubmissionState) -> bool
    ensures { result ≡ submission_due state }
{
    matches!(state, TdBasedNormalSubmissionState::SubmissionDue)
}

// Does a block in this state await the device's result?
pub fn awaits_device(state: TdBasedNormalSubmissionState) -> bool
    ensures { result ≡ awaits_device state }
{
    matches!(state, TdBasedNormalSubmissionState::AwaitingRealTransfer)
}

// Is it a Normal?
pub fn is_normal(variant: TransferTrbVariant) -> bool
    ensures { result ≡ is_normal variant }
{
    matches!(variant, TransferTrbVariant::Normal(_))
}

// What question 2 asks of each TRB held: is every one sound, and how many are Normals? No more are counted than a block has places.
#[derive(Clone, Copy)]
pub struct HeldTest {
    pub sound: bool,
    pub normals: usize,
}

// The Normals counted, with this TRB.
fn count_normal(so_far: usize, variant: TransferTrbVariant) -> usize
    ensures { result ≡ min (so_far + normal_count variant) max_held }
{
    so_far
        .saturating_add(usize::from(is_normal(variant)))
        .min(trb::MAX_HELD)
}

// One TRB more is tested.
#[tactic(auto, unfolding(held::specs::Sound::sound_trb))]
pub fn test_trb(so_far: HeldTest, t: TransferTrb) -> HeldTest
    ensures { result ≡ trb_test so_far t }
{
    HeldTest {
        sound: so_far.sound && held::is_sound(EndpointKind::In, t),
        normals: count_normal(so_far.normals, t.variant),
    }
}

// Tests these TRBs, from the first on.
pub fn test_held(trbs: &[TransferTrb]) -> HeldTest
    ensures { result ≡ held_test trbs.now }
{
    let untested = HeldTest {
        sound: true,
        normals: 0,
    };
    trbs.iter().fold(untested, |so_far, t| test_trb(so_far, *t))
}

// What the questions ask about: the block's own values, and what one loop over the TRBs held found.
#[derive(Clone, Copy)]
pub struct BlockFacts {
    pub endpoint_id: EndpointId,
    pub slot_id: SlotId,
    pub state: TdBasedNormalSubmissionState,
    pub held: usize,
    pub found: HeldTest,
}

// The facts of a block.
pub fn facts_of(block: &InBlock) -> BlockFacts
    ensures { result ≡ facts_of block.now }
{
    BlockFacts {
        endpoint_id: block.endpoint_id,
        slot_id: block.slot_id,
        state: block.state,
        held: block.held,
        found: test_held(held_of(block)),
    }
}

// Question 2: is the block sound?
#[tactic(auto, unfolding(crate::specs::Facts::sound_block))]
pub fn is_sound(facts: BlockFacts) -> bool
    ensures { result ≡ sound_block facts }
{
    trb::ids_in_range(facts.endpoint_id, facts.slot_id)
        && facts.held <= trb::MAX_HELD
        && facts.found.sound
        && (!awaits_device(facts.state) || facts.found.normals != 0)
}

// ---- What becomes of a TRB that is taken

#[derive(Clone, Copy)]
pub enum Outcome {
    // The TRBs held are dropped.
    Drop,
    // It is held, and its TD goes on.
    Collect,
    // It is held and ends a TD without a Normal.
    CompleteLocally,
    // It is held and ends a TD with a Normal.
    Request,
}

// Of a TRB behind those held, of which the loop found this.
#[tactic(auto, unfolding(crate::specs::Outcomes::outcome_of))]
pub fn outcome_of(found: HeldTest, t: TransferTrb) -> Outcome
    ensures { result ≡ outcome_of found t }
{
    if !held::supports(EndpointKind::In, t.variant) {
        Outcome::Drop
    } else if trb::chain_of(t.variant) {
        Outcome::Collect
    } else if test_trb(found, t).normals == 0 {
        Outcome::CompleteLocally
    } else {
        Outcome::Request
    }
}

// The state that a TRB at `addr` leaves.
pub fn state_after(outcome: Outcome, addr: u64) -> TdBasedNormalSubmissionState
    ensures { result ≡ state_after outcome addr }
{
    match outcome {
        Outcome::Drop => TdBasedNormalSubmissionState::UnsupportedTrb(addr),
        Outcome::Collect => TdBasedNormalSubmissionState::CollectingTd,
        Outcome::CompleteLocally => TdBasedNormalSubmissionState::AwaitingLocalCompletion,
        Outcome::Request => TdBasedNormalSubmissionState::AwaitingRealTransfer,
    }
}

// ---- What a completion does

#[derive(Clone, Copy)]
pub enum Ending {
    // The TRBs held are kept: their TD goes on.
    KeepCollecting,
    // They are walked, with this status and so many bytes.
    Transfer(InTrbProcessingStatus, u32),
    // The TRB at this address, of an unsupported kind, is reported.
    ReportUnsupported(u64),
}

// Of a block in this state, with this device result and so many bytes of data.
pub fn ending_of(
    state: TdBasedNormalSubmissionState,
    res: Option<InTrbProcessingStatus>,
    data_length: u32,
) -> Ending
    ensures { result ≡ ending_of state res data_length }
{
    match state {
        TdBasedNormalSubmissionState::SubmissionDue | TdBasedNormalSubmissionState::CollectingTd =>
            { Ending::KeepCollecting }
        TdBasedNormalSubmissionState::AwaitingRealTransfer => match res {
            None => Ending::KeepCollecting,
            Some(status) => Ending::Transfer(status, data_length),
        },
        TdBasedNormalSubmissionState::AwaitingLocalCompletion => Ending::Transfer(
            InTrbProcessingStatus::Success,
            0,
        ),
        TdBasedNormalSubmissionState::UnsupportedTrb(addr) => Ending::ReportUnsupported(addr),
    }
}
