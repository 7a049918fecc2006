// The block of a control endpoint: made and changed; the facts of it that the questions ask about; what a completion does; and where the
// event of a failed transfer goes.
#![tactic(auto)]

ghost use Rattle.std.specs.Prelude.{◌≡◌, ◌<◌};
ghost use Rattle.trb.specs.Limits.{max_held};
ghost use Rattle.control_block.specs.Numbers.{release_of, phase_of};
ghost use Rattle.control_block.specs.Blocks.{no_transfer, at_phase, fresh_block, held_of, stored, emptied, advanced};
ghost use Rattle.control_block.specs.Facts.{facts_of, sound_block, submission_due, awaits_device};
ghost use Rattle.control_block.specs.Endings.{request_ending, ending_of, result_of, places_freed, phase_behind};
ghost use Rattle.control_block.specs.Stages.{stage_address, address_for, error_address, stage_with, found_address};

use held::EndpointKind;
use trb::{
    CompletionCode, ControlRequestProcessingResult, ControlSubmissionState, ControlTransferState,
    EndpointId, SlotId, TransferTrb, TransferTrbVariant, TrbProcessingResult, UsbRequest,
};

// Whose rule a block is created for: where its guest looks for the event of a failed transfer.
#[derive(Clone, Copy)]
pub enum GuestRelease {
    // At the Setup TRB.
    Release4,
    // At the TRB of the stage.
    Release5,
}

// What a block knows of its transfer; the Rust's `ControlTransfer`. How many bytes are collected, and below how many TRBs are held, has no
// bound by its type: any bytes are a block, and question 2 asks for the bound.
#[derive(Clone, Copy)]
pub struct ControlTransfer {
    pub phase: ControlTransferState,
    // Of the request: is it IN?
    pub direction: bool,
    pub request: UsbRequest,
    // Bytes of an OUT transfer in the collect buffer.
    pub collected: usize,
}

#[derive(Clone, Copy)]
pub struct ControlBlock {
    pub endpoint_id: EndpointId,
    pub slot_id: SlotId,
    pub release: GuestRelease,
    pub state: ControlSubmissionState,
    pub transfer: ControlTransfer,
    // Of the places, the first so many are held. A count and no `ArrayVec`: any count is a block, and question 2 asks for the bound.
    pub held: usize,
    pub trbs: [TransferTrb; trb::MAX_HELD],
}

// The TRBs that are held: no more than there are places.
pub fn held_of(block: &ControlBlock) -> &[TransferTrb]
    ensures { result.now ≡ held_of block.now }
{
    &block.trbs[..held::places_held(block.held)]
}

// ---- Numbers that stand for a case, in a block in bytes: any number is one. A script has the phases so too, and its own releases.

// The release rule by its number: 5 is release 5, any other release 4.
pub fn release_of(number: u8) -> GuestRelease
    ensures { result ≡ release_of number }
{
    match number {
        5 => GuestRelease::Release5,
        _ => GuestRelease::Release4,
    }
}

// The phase by its number: 1 to 4 in the order of their type, any other number the first.
pub fn phase_of(number: u8) -> ControlTransferState
    ensures { result ≡ phase_of number }
{
    match number {
        1 => ControlTransferState::MaybeDataStageTrb,
        2 => ControlTransferState::MoreData,
        3 => ControlTransferState::ExpectStatusStageTrb,
        4 => ControlTransferState::ExpectFinalEventDataTrb,
        _ => ControlTransferState::ExpectSetupStageTrb,
    }
}

// ---- Changes

// Of a fresh block, as 01 lists it. No `Default`: those of the phase and the request would stand in `trb`, apart from what 01 says here.
fn no_transfer() -> ControlTransfer
    ensures { result ≡ no_transfer }
{
    ControlTransfer {
        phase: ControlTransferState::ExpectSetupStageTrb,
        direction: false,
        request: UsbRequest {
            address: 0,
            request_type: 0,
            request: 0,
            value: 0,
            index: 0,
            length: 0,
        },
        collected: 0,
    }
}

// A block that holds nothing and knows of no transfer; a submission is due.
pub fn fresh(endpoint_id: EndpointId, slot_id: SlotId, release: GuestRelease) -> ControlBlock
    ensures { result ≡ fresh_block endpoint_id slot_id release }
{
    ControlBlock {
        endpoint_id,
        slot_id,
        release,
        state: ControlSubmissionState::NoTrbSubmitted,
        transfer: no_transfer(),
        held: 0,
        trbs: [held::blank(); trb::MAX_HELD],
    }
}

// The transfer at another phase.
pub fn at_phase(transfer: ControlTransfer, phase: ControlTransferState) -> ControlTransfer
    ensures { result ≡ at_phase phase transfer }
{
    ControlTransfer { phase, ..transfer }
}

// One TRB more is held. As in `in_block`: shared it would be a struct of places and count, and every definition of a block of that.
pub fn store(block: &mut ControlBlock, t: TransferTrb)
    requires { block.old.held < max_held }
    ensures { block.new ≡ stored block.old t }
{
    block.trbs[block.held] = t;
    block.held += 1;
}

// Nothing is held any more.
pub fn empty(block: &mut ControlBlock)
    ensures { block.new ≡ emptied block.old }
{
    held::clear(&mut block.trbs, block.held);
    block.held = 0;
}

// The transfer is at this, and so is the endpoint.
pub fn advance(
    block: ControlBlock,
    transfer: ControlTransfer,
    state: ControlSubmissionState,
) -> ControlBlock
    ensures { result ≡ advanced block transfer state }
{
    ControlBlock {
        state,
        transfer,
        ..block
    }
}

// ---- Facts

// What the questions ask about. `sound`: the TRBs held are of kinds that the endpoint supports, each of a length within the limit.
#[derive(Clone, Copy)]
pub struct BlockFacts {
    pub endpoint_id: EndpointId,
    pub slot_id: SlotId,
    pub phase: ControlTransferState,
    pub state: ControlSubmissionState,
    pub direction: bool,
    pub collected: usize,
    pub held: usize,
    pub sound: bool,
}

// The facts of a block.
pub fn facts_of(block: &ControlBlock) -> BlockFacts
    ensures { result ≡ facts_of block.now }
{
    BlockFacts {
        endpoint_id: block.endpoint_id,
        slot_id: block.slot_id,
        phase: block.transfer.phase,
        state: block.state,
        direction: block.transfer.direction,
        collected: block.transfer.collected,
        held: block.held,
        sound: held::are_sound(EndpointKind::Control, held_of(block)),
    }
}

// Question 2: is the block sound?
#[tactic(auto, unfolding(crate::specs::Facts::sound_block))]
pub fn is_sound(facts: BlockFacts) -> bool
    ensures { result ≡ sound_block facts }
{
    trb::ids_in_range(facts.endpoint_id, facts.slot_id)
        && facts.held <= trb::MAX_HELD
        && facts.collected <= trb::MAX_COLLECTED
        && facts.sound
}

// Is a submission due? A completion is due in the other states.
pub fn submission_due(state: ControlSubmissionState) -> bool
    ensures { result ≡ submission_due state }
{
    matches!(state, ControlSubmissionState::NoTrbSubmitted)
}

// Does a block in this state await the device's result?
pub fn awaits_device(state: ControlSubmissionState) -> bool
    ensures { result ≡ awaits_device state }
{
    matches!(state, ControlSubmissionState::AwaitingControlRequest)
}

// ---- Endings

// What a completion does.
#[derive(Clone, Copy)]
pub enum Ending {
    // More TRBs of the transfer follow.
    KeepCollecting,
    // The TRBs held are dropped, and the one at this address is reported.
    ReportBadTrb(u64),
    // The device failed: one event with this code, and this result.
    Fail(CompletionCode, TrbProcessingResult),
    // The TRBs held are realized: on IN, with so many bytes of device data; on OUT there are none.
    Realize(Option<u32>),
}

// What the device's answer to a request comes to.
fn request_ending(res: Option<ControlRequestProcessingResult>, data_length: u32) -> Ending
    ensures { result ≡ request_ending res data_length }
{
    match res {
        None => Ending::KeepCollecting,
        Some(ControlRequestProcessingResult::Disconnect) => Ending::Fail(
            CompletionCode::UsbTransactionError,
            TrbProcessingResult::Disconnect,
        ),
        Some(ControlRequestProcessingResult::Stall) => Ending::Fail(
            CompletionCode::StallError,
            TrbProcessingResult::Stall,
        ),
        Some(ControlRequestProcessingResult::TransactionError) => Ending::Fail(
            CompletionCode::UsbTransactionError,
            TrbProcessingResult::TransactionError,
        ),
        Some(ControlRequestProcessingResult::SuccessfulControlIn) => {
            Ending::Realize(Some(data_length))
        }
        Some(ControlRequestProcessingResult::SuccessfulControlOut) => Ending::Realize(None),
    }
}

// What a completion does, by what the endpoint is at.
pub fn ending_of(
    state: ControlSubmissionState,
    res: Option<ControlRequestProcessingResult>,
    data_length: u32,
) -> Ending
    ensures { result ≡ ending_of state res data_length }
{
    match state {
        ControlSubmissionState::NoTrbSubmitted | ControlSubmissionState::CollectingTd => {
            Ending::KeepCollecting
        }
        ControlSubmissionState::ParserError(addr) | ControlSubmissionState::UnexpectedTrb(addr) => {
            Ending::ReportBadTrb(addr)
        }
        ControlSubmissionState::AwaitingControlRequest => request_ending(res, data_length),
    }
}

// The result of a completion that ends so, which carries no address.
pub fn result_of(ending: Ending) -> TrbProcessingResult
    ensures { result ≡ result_of ending }
{
    match ending {
        Ending::KeepCollecting | Ending::Realize(_) => TrbProcessingResult::Ok,
        Ending::ReportBadTrb(_) => TrbProcessingResult::TrbError,
        Ending::Fail(_, result) => result,
    }
}

// How many of the `held` TRBs are held no more: all of them, but where TRBs are still collected.
pub fn places_freed(ending: Ending, held: usize) -> usize
    ensures { result ≡ places_freed ending held }
{
    match ending {
        Ending::KeepCollecting => 0,
        _ => held,
    }
}

// The phase behind a completion.
pub fn phase_behind(
    state: ControlSubmissionState,
    phase: ControlTransferState,
) -> ControlTransferState
    ensures { result ≡ phase_behind state phase }
{
    match state {
        ControlSubmissionState::UnexpectedTrb(_) => ControlTransferState::ExpectSetupStageTrb,
        _ => phase,
    }
}

// ---- Where the event of a failed transfer goes

// The stage found among the TRBs held so far: the first Data Stage TRB, failing that the first Status Stage TRB. Each case has the address
// that the event goes to.
#[derive(Clone, Copy)]
pub enum StageFound {
    // Of the Setup TRB.
    Neither(u64),
    StatusStage(u64),
    DataStage(u64),
}

// One TRB more is looked at.
#[tactic(auto, unfolding(crate::specs::Stages::stage_with))]
pub fn stage_with(so_far: StageFound, t: TransferTrb) -> StageFound
    ensures { result ≡ stage_with so_far t }
{
    match (so_far, t.variant) {
        (StageFound::DataStage(_), _) => so_far,
        (_, TransferTrbVariant::DataStage(_)) => StageFound::DataStage(t.addr),
        (StageFound::Neither(_), TransferTrbVariant::StatusStage(_)) => {
            StageFound::StatusStage(t.addr)
        }
        _ => so_far,
    }
}

// The address of the stage that was found.
pub fn found_address(found: StageFound) -> u64
    ensures { result ≡ found_address found }
{
    match found {
        StageFound::Neither(addr) | StageFound::StatusStage(addr) | StageFound::DataStage(addr) => {
            addr
        }
    }
}

// The address of the stage among these TRBs.
fn stage_address(trbs: &[TransferTrb], setup_address: u64) -> u64
    ensures { result ≡ stage_address trbs.now setup_address }
{
    let none = StageFound::Neither(setup_address);
    let found = trbs.iter().fold(none, |so_far, t| stage_with(so_far, *t));
    found_address(found)
}

// Where the event goes, by the block's rule.
pub fn address_for(release: GuestRelease, setup_address: u64, stage_address: u64) -> u64
    ensures { result ≡ address_for release setup_address stage_address }
{
    match release {
        GuestRelease::Release4 => setup_address,
        GuestRelease::Release5 => stage_address,
    }
}

// Where the event of a failed transfer of this block goes.
#[tactic(auto, unfolding(crate::specs::Stages::error_address))]
pub fn error_address(block: &ControlBlock) -> u64
    ensures { result ≡ error_address block.now }
{
    let setup_address = block.transfer.request.address;
    address_for(
        block.release,
        setup_address,
        stage_address(held_of(block), setup_address),
    )
}
