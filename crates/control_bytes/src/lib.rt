// The block of a control endpoint as a lent row of bytes: its head and its places, read and stored. specs/Layout.antt says which block the
// bytes are.
#![tactic(auto)]

ghost use Rattle.std.specs.Prelude.{◌≡◌, true, ◌<◌, ◌≤◌, ◌^◌, length, map, take};
ghost use Rattle.trb.specs.Limits.{max_held, max_transfer_length};
ghost use Rattle.trb.specs.Trbs.{transfer_length};
ghost use Rattle.held.specs.Sound.{supported};
ghost use Rattle.held.specs.declared.EndpointKind.TheVariants.{Control};
ghost use Rattle.held_bytes.specs.Numbers.{trb_of};
ghost use Rattle.control_block.specs.Facts.{facts_of};
ghost use Rattle.control_bytes.specs.Head.{phase_number, state_of, state_number, state_address, direction_number, request_at, head_bytes, turn_cells, count_cells};
ghost use Rattle.control_bytes.specs.Layout.{head_length, block_length, held_type, place_of, id_at, block_of};
ghost use Rattle.control_bytes.specs.Stores.{turned, counting, fresh_head, Headed, Made, Placed};

use control_block::{BlockFacts, ControlTransfer, GuestRelease};
use held_bytes::TrbNumbers;
use trb::{
    ControlSubmissionState, ControlTransferState, EndpointId, SlotId, TransferTrb, UsbRequest,
};

// Bytes before the places.
pub const HEAD: usize = 48;

// Bytes of a block. It is lent as a slice, and each function asks that the slice is long enough: see `in_bytes`.
pub const BLOCK: usize = HEAD + held_bytes::PLACE * trb::MAX_HELD;

// ---- Numbers: constants and no enum, since any byte is a state; and no `From`, since the enums are trb's and the numbers this layout's.

const NOTHING_SUBMITTED: u8 = 0;

const COLLECTING: u8 = 1;

const AWAITING: u8 = 2;

const PARSER_ERROR: u8 = 3;

const UNEXPECTED: u8 = 4;

fn phase_number(phase: ControlTransferState) -> u8
    ensures { result ≡ phase_number phase }
{
    phase as u8
}

fn state_of(number: u8, addr: u64) -> ControlSubmissionState
    ensures { result ≡ state_of number addr }
{
    match number {
        NOTHING_SUBMITTED => ControlSubmissionState::NoTrbSubmitted,
        COLLECTING => ControlSubmissionState::CollectingTd,
        AWAITING => ControlSubmissionState::AwaitingControlRequest,
        PARSER_ERROR => ControlSubmissionState::ParserError(addr),
        _ => ControlSubmissionState::UnexpectedTrb(addr),
    }
}

fn state_number(state: ControlSubmissionState) -> u8
    ensures { result ≡ state_number state }
{
    match state {
        ControlSubmissionState::NoTrbSubmitted => NOTHING_SUBMITTED,
        ControlSubmissionState::CollectingTd => COLLECTING,
        ControlSubmissionState::ParserError(_) => PARSER_ERROR,
        ControlSubmissionState::UnexpectedTrb(_) => UNEXPECTED,
        ControlSubmissionState::AwaitingControlRequest => AWAITING,
    }
}

// The address that a state keeps.
fn state_address(state: ControlSubmissionState) -> u64
    ensures { result ≡ state_address state }
{
    match state {
        ControlSubmissionState::ParserError(addr) | ControlSubmissionState::UnexpectedTrb(addr) => {
            addr
        }
        _ => 0,
    }
}

// ---- Reading

// The byte at `at`, where the layout is this one.
fn id_at(block: &[u8], at: usize) -> u8
    requires { (head_length ≤ length block.now) × (at < head_length) }
    ensures { result ≡ id_at at block.now }
{
    if block[0] == held_bytes::CONTROL_LAYOUT {
        block[at]
    } else {
        0
    }
}

// The endpoint id of the block; 0 in another layout.
#[tactic(auto, unfolding(crate::specs::Layout::block_of))]
pub fn endpoint_id(block: &[u8]) -> EndpointId
    requires { head_length ≤ length block.now }
    ensures { result ≡ (block_of block.now).endpoint_id }
{
    EndpointId(id_at(block, 1))
}

// The slot id of the block; 0 in another layout.
#[tactic(auto, unfolding(crate::specs::Layout::block_of))]
pub fn slot_id(block: &[u8]) -> SlotId
    requires { head_length ≤ length block.now }
    ensures { result ≡ (block_of block.now).slot_id }
{
    SlotId(id_at(block, 2))
}

// The release rule of the block.
#[tactic(auto, unfolding(crate::specs::Layout::block_of))]
pub fn release(block: &[u8]) -> GuestRelease
    requires { head_length ≤ length block.now }
    ensures { result ≡ (block_of block.now).release }
{
    control_block::release_of(block[3])
}

// The state of the block.
#[tactic(auto, unfolding(crate::specs::Layout::block_of))]
pub fn state(block: &[u8]) -> ControlSubmissionState
    requires { head_length ≤ length block.now }
    ensures { result ≡ (block_of block.now).state }
{
    state_of(block[5], buffers::le64(block, 8))
}

// TRBs held.
#[tactic(auto, unfolding(crate::specs::Layout::block_of))]
pub fn held(block: &[u8]) -> usize
    requires { head_length ≤ length block.now }
    ensures { (result ≡ (block_of block.now).held) × (result < 2 ^ 32) }
{
    buffers::le32(block, 44) as usize
}

fn request(block: &[u8]) -> UsbRequest
    requires { head_length ≤ length block.now }
    ensures { result ≡ request_at block.now }
{
    UsbRequest {
        address: buffers::le64(block, 16),
        request_type: block[24],
        request: block[25],
        value: buffers::le16(block, 26),
        index: buffers::le16(block, 28),
        length: buffers::le32(block, 40),
    }
}

// What the block knows of its transfer.
#[tactic(auto, unfolding(crate::specs::Layout::block_of))]
pub fn transfer(block: &[u8]) -> ControlTransfer
    requires { head_length ≤ length block.now }
    ensures { result ≡ (block_of block.now).transfer }
{
    ControlTransfer {
        phase: control_block::phase_of(block[4]),
        direction: block[6] == 1,
        request: request(block),
        collected: buffers::le64(block, 32) as usize,
    }
}

// What the questions ask about. Every place that is held is sound, whatever its bytes: so the facts are given one by one, and not by
// `facts_of` of a block.
pub fn facts(block: &[u8]) -> BlockFacts
    requires { head_length ≤ length block.now }
    ensures { result ≡ facts_of (block_of block.now) }
{
    let transfer = transfer(block);
    BlockFacts {
        endpoint_id: endpoint_id(block),
        slot_id: slot_id(block),
        phase: transfer.phase,
        state: state(block),
        direction: transfer.direction,
        collected: transfer.collected,
        held: held(block),
        sound: true,
    }
}

// A type that this endpoint holds stands for itself, any other for Event Data.
fn held_type(kind: u8) -> u8
    ensures { result ≡ held_type kind }
{
    match kind {
        raw_trb::NORMAL | raw_trb::SETUP_STAGE | raw_trb::DATA_STAGE | raw_trb::STATUS_STAGE => {
            kind
        }
        _ => raw_trb::EVENT_DATA,
    }
}

// The first `count` places, each by its bytes, where so many are held.
// Of the other layout likewise: what both read is one line over `HEAD`, and what they promise is of two layouts.
pub fn held_places(block: &[u8], count: usize) -> &[[u8; held_bytes::PLACE]]
    requires { (block_length ≤ length block.now) × ((count ≤ (block_of block.now).held) × (count ≤ max_held)) }
    ensures trbs { map place_of result.now ≡ take count (block_of block.now).trbs }
    ensures count { length result.now ≡ count }
{
    &block[HEAD..].as_chunks().0[..count]
}

// The TRB in a place that is held, by numbers.
#[tactic(auto, unfolding(crate::specs::Layout::place_of))]
pub fn numbers_in(place: &[u8; held_bytes::PLACE]) -> TrbNumbers
    ensures { trb_of result ≡ place_of place.now }
{
    let numbers = held_bytes::numbers_at(place, 0);
    TrbNumbers {
        kind: held_type(numbers.kind),
        ..numbers
    }
}

// The TRB in a place that is held.
pub fn trb_in(place: &[u8; held_bytes::PLACE]) -> TransferTrb
    ensures { result ≡ place_of place.now }
{
    held_bytes::trb_of(numbers_in(place))
}

// ---- Storing

// The bytes of the head from 4 on.
fn encoded(transfer: ControlTransfer, state: ControlSubmissionState, held: u32) -> [u8; 44]
    ensures cells { result ≡ head_bytes transfer state held }
    ensures address { state_address state < 256 ^ 8 }
{
    let request = transfer.request;
    let collected = transfer.collected as u64;
    let mut cells = [0; 44];
    cells[0] = phase_number(transfer.phase);
    cells[1] = state_number(state);
    cells[2] = u8::from(transfer.direction);
    cells[4..12].copy_from_slice(&state_address(state).to_le_bytes());
    cells[12..20].copy_from_slice(&request.address.to_le_bytes());
    cells[20] = request.request_type;
    cells[21] = request.request;
    cells[22..24].copy_from_slice(&request.value.to_le_bytes());
    cells[24..26].copy_from_slice(&request.index.to_le_bytes());
    cells[28..36].copy_from_slice(&collected.to_le_bytes());
    cells[36..40].copy_from_slice(&request.length.to_le_bytes());
    cells[40..].copy_from_slice(&held.to_le_bytes());
    cells
}

// The block is at this transfer, in this state, and holds the first `held` places; what its creation gave it stays.
pub fn put_head(
    block: &mut [u8],
    transfer: ControlTransfer,
    state: ControlSubmissionState,
    held: usize,
)
    requires { (head_length ≤ length block.old) × (held < 2 ^ 32) }
    ensures { Headed block.old transfer state held block.new }
{
    buffers::copy_into(block, 4, &encoded(transfer, state, held as u32));
}

// The bytes of the head from 4 to 15.
fn turn_cells(
    phase: ControlTransferState,
    state: ControlSubmissionState,
    direction: bool,
) -> [u8; 12]
    ensures cells { result ≡ turn_cells (phase_number phase) (state_number state) (direction_number direction) (state_address state) }
    ensures address { state_address state < 256 ^ 8 }
{
    let mut cells = [0; 12];
    cells[0] = phase_number(phase);
    cells[1] = state_number(state);
    cells[2] = u8::from(direction);
    cells[4..].copy_from_slice(&state_address(state).to_le_bytes());
    cells
}

// The block's transfer is at this phase and in this direction, and the endpoint at this; the request and what is counted stay.
pub fn put_turn(
    block: &mut [u8],
    phase: ControlTransferState,
    state: ControlSubmissionState,
    direction: bool,
)
    requires { head_length ≤ length block.old }
    ensures { Headed block.old (turned phase direction (block_of block.old).transfer) state (block_of block.old).held block.new }
{
    buffers::copy_into(block, 4, &turn_cells(phase, state, direction));
}

// The bytes of the head from 32 to 47.
fn count_cells(collected: u64, request_length: u32, held: u32) -> [u8; 16]
    ensures { result ≡ count_cells collected request_length held }
{
    let mut cells = [0; 16];
    cells[..8].copy_from_slice(&collected.to_le_bytes());
    cells[8..12].copy_from_slice(&request_length.to_le_bytes());
    cells[12..].copy_from_slice(&held.to_le_bytes());
    cells
}

// So many bytes are collected, so many asked for, and the first `held` places held; what else the head says stays.
pub fn put_counts(block: &mut [u8], collected: usize, request_length: u32, held: usize)
    requires { (head_length ≤ length block.old) × (held < 2 ^ 32) }
    ensures { Headed block.old (counting collected request_length (block_of block.old).transfer) (block_of block.old).state held block.new }
{
    let cells = count_cells(collected as u64, request_length, held as u32);
    buffers::copy_into(block, 32, &cells);
}

// The bytes of a fresh block's head.
fn fresh_head(endpoint_id: u8, slot_id: u8, release: u8) -> [u8; HEAD]
    ensures { result ≡ fresh_head endpoint_id slot_id release }
{
    let mut cells = [0u8; HEAD];
    cells[0] = held_bytes::CONTROL_LAYOUT;
    cells[1] = endpoint_id;
    cells[2] = slot_id;
    cells[3] = release;
    cells
}

// The bytes become a fresh block with these ids, for guests of this release.
pub fn make(block: &mut [u8], endpoint_id: u8, slot_id: u8, release: u8)
    requires { head_length ≤ length block.old }
    ensures { Made block.old endpoint_id slot_id release block.new }
{
    let cells = fresh_head(endpoint_id, slot_id, release);
    buffers::copy_into(block, 0, &cells);
}

// The TRB is in the place behind the `i` that are held. Of an IN block this is `in_bytes::put_trb`: what both store is `put_place`'s, and
// what they promise is of two layouts.
pub fn put_trb(block: &mut [u8], i: usize, numbers: TrbNumbers)
    requires block_length_in_bounds { (block_length ≤ length block.old) × (i < max_held) }
    requires numbers_value { (supported Control (trb_of numbers).variant ≡ true) × (transfer_length (trb_of numbers).variant ≤ max_transfer_length) }
    ensures { Placed block.old i (trb_of numbers) block.new }
{
    held_bytes::put_place(block, HEAD + held_bytes::PLACE * i, numbers);
}
