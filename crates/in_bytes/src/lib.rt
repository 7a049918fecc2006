// The block of an IN endpoint as a lent row of bytes: read, tested, summed, stored and made blank. specs/Layout.antt says which block the
// bytes are.
#![tactic(auto)]

ghost use Rattle.std.specs.Prelude.{◌≡◌, not, min, cond, [], ◌∷◌, ◌+◌, ◌*◌, ◌≤◌, ◌%◌, ◌/◌, eqb, length, get_or, map, drop, take, set, replicate};
ghost use Rattle.trb.specs.Limits.{max_held, max_transfer_length};
ghost use Rattle.buffers.specs.Patch.{patch};
ghost use Rattle.buffers.specs.LittleEndian.{le_bytes, le_field};
ghost use Rattle.held.specs.declared.EndpointKind.TheVariants.{In};
ghost use Rattle.in_td.specs.Normals.{normal_of, length_of, requested};
ghost use Rattle.in_td.specs.Td.{is_normal, normals};
ghost use Rattle.held_bytes.specs.Numbers.{variant_of};
ghost use Rattle.held_bytes.specs.Places.{place_length, in_layout, place_bytes, held_type, place_of};
ghost use Rattle.in_bytes.specs.Layout.{head_length, block_length, endpoint_of, slot_of, mode_of, state_of, held_count, places};

use held_bytes::TrbNumbers;
use in_td::InMode;
use trb::{EndpointId, SlotId, TdBasedNormalSubmissionState, TransferTrb, TransferTrbVariant};

// Bytes before the places, and bytes of a block. It is lent as a slice, and each function asks that the slice is long enough: an array
// would say so by its type, but what a call promises is said of all bytes that were lent, of which the array would be the front alone.
// Nor a struct with the length as invariant: reads and stores go by turns, and each read would make it anew of the lent slice.
pub const HEAD: usize = 16;

pub const BLOCK: usize = HEAD + held_bytes::PLACE * trb::MAX_HELD;

// Where the head has the state, and the address of an unsupported TRB.
pub const STATE_AT: usize = 6;

pub const ADDRESS_AT: usize = 8;

// States by number: constants and no enum, since any byte is a state.
pub const DUE: u8 = 0;

pub const COLLECTING: u8 = 1;

pub const AWAITING: u8 = 2;

pub const LOCAL: u8 = 3;

pub const UNSUPPORTED: u8 = 4;

// ---- Reading

// An id of a block in this layout; of one in another, 0.
fn known_id(layout: u8, id: u8) -> u8
    ensures { result ≡ cond (eqb layout in_layout) id 0 }
{
    if layout == held_bytes::IN_LAYOUT {
        id
    } else {
        0
    }
}

// The endpoint id of the block; 0 in another layout.
pub fn endpoint_id(block: &[u8]) -> EndpointId
    requires { head_length ≤ length block.now }
    ensures { result ≡ endpoint_of block.now }
{
    EndpointId(known_id(block[0], block[1]))
}

// The slot id of the block; 0 in another layout.
pub fn slot_id(block: &[u8]) -> SlotId
    requires { head_length ≤ length block.now }
    ensures { result ≡ slot_of block.now }
{
    SlotId(known_id(block[0], block[2]))
}

// The block's mode: 0 as ported, any other number strict.
pub fn mode(block: &[u8]) -> InMode
    requires { head_length ≤ length block.now }
    ensures { result ≡ mode_of (get_or block.now 3 0) }
{
    if block[3] == 0 {
        InMode::AsPorted
    } else {
        InMode::Strict
    }
}

// TRBs held.
pub fn held(block: &[u8]) -> u16
    requires { head_length ≤ length block.now }
    ensures { result ≡ held_count block.now }
{
    buffers::le16(block, 4)
}

// The state by its number, and the address of an unsupported TRB.
pub fn state_of(number: u8, addr: u64) -> TdBasedNormalSubmissionState
    ensures { result ≡ state_of number addr }
{
    match number {
        DUE => TdBasedNormalSubmissionState::SubmissionDue,
        COLLECTING => TdBasedNormalSubmissionState::CollectingTd,
        AWAITING => TdBasedNormalSubmissionState::AwaitingRealTransfer,
        LOCAL => TdBasedNormalSubmissionState::AwaitingLocalCompletion,
        _ => TdBasedNormalSubmissionState::UnsupportedTrb(addr),
    }
}

// By `held_bytes::trb_of` the type would first be exchanged for that of a NoOp, in a match as long as this one.
#[tactic(auto, unfolding(held_bytes::specs::Numbers::variant_of))]
fn held_variant(numbers: TrbNumbers) -> TransferTrbVariant
    ensures { result ≡ variant_of (held_type In numbers.kind) numbers.flags numbers.value numbers.transfer_length }
{
    match numbers.kind {
        raw_trb::NORMAL => TransferTrbVariant::Normal(held_bytes::normal(numbers)),
        raw_trb::EVENT_DATA => TransferTrbVariant::EventData(held_bytes::event_data(numbers)),
        _ => TransferTrbVariant::NoOp(held_bytes::no_op(numbers.flags)),
    }
}

// The TRB in the place that starts at `at`.
#[tactic(auto, unfolding(held_bytes::specs::Places::place_of))]
pub fn trb_from(block: &[u8], at: usize) -> TransferTrb
    requires { at + place_length ≤ length block.now }
    ensures { result ≡ place_of In (drop at block.now) }
{
    let numbers = held_bytes::numbers_at(block, at);
    TransferTrb {
        variant: held_variant(numbers),
        addr: numbers.addr,
        cycle_bit: held_bytes::bit(numbers.flags, held_bytes::CYCLE),
    }
}

// The TRB in place number i.
pub fn trb_at(block: &[u8], i: usize) -> TransferTrb
    requires { head_length + place_length * (i + 1) ≤ length block.now }
    ensures { result ≡ place_of In (drop (head_length + place_length * i) block.now) }
{
    trb_from(block, HEAD + held_bytes::PLACE * i)
}

// The transfer length in the place that starts at `at`: of its four bytes 17 bits count.
pub fn length_at(block: &[u8], at: usize) -> u32
    requires { at + place_length ≤ length block.now }
    ensures { result ≡ le_field 16 4 (drop at block.now) % (max_transfer_length + 1) }
{
    buffers::le32(block, at + held_bytes::LENGTH_AT) & trb::MAX_TRANSFER_LENGTH
}

// The places held, each by its bytes.
// Of the other layout likewise: what both read is one line over `HEAD`, and what they promise is of two layouts.
pub fn held_places(block: &[u8]) -> &[[u8; held_bytes::PLACE]]
    requires { block_length ≤ length block.now }
    ensures trbs { map (place_of In) result.now ≡ take (held_count block.now) (places block.now) }
    ensures count { length result.now ≡ min (held_count block.now) max_held }
{
    let count = held::places_held(held(block) as usize);
    &block[HEAD..].as_chunks().0[..count]
}

// Is the TRB in this place a Normal?
fn is_normal(place: &[u8; held_bytes::PLACE]) -> bool
    ensures { result ≡ is_normal (place_of In place.now).variant }
{
    place[held_bytes::KIND_AT] == raw_trb::NORMAL
}

// Is one of the TRBs in these places a Normal? The first Normal ends the search.
pub fn has_normal(places: &[[u8; held_bytes::PLACE]]) -> bool
    ensures { result ≡ not (eqb (normals (map (place_of In) places.now)) 0) }
{
    places.iter().any(|place| is_normal(place))
}

// How many of the TRBs in these places are Normals. By `filter` and `count` each TRB of a TD takes 8 instructions more.
pub fn count_normals(places: &[[u8; held_bytes::PLACE]]) -> usize
    requires { length places.now ≤ max_held }
    ensures { result ≡ normals (map (place_of In) places.now) }
{
    let mut count = 0;
    for place in places {
        count += is_normal(place) as usize;
    }
    count
}

// The length of the TRB in this place, if it is a Normal; of any other TRB 0.
fn normal_length(place: &[u8; held_bytes::PLACE]) -> u32
    ensures { result ≡ length_of (normal_of (place_of In place.now).variant) }
{
    if is_normal(place) {
        length_at(place, 0)
    } else {
        0
    }
}

// S, the sum of the Normal lengths of the TRBs in these places. By value `in_request::requested_length`; here a place's type and length alone
// are read, and no TRB is made.
pub fn requested_length(places: &[[u8; held_bytes::PLACE]]) -> u32
    requires { length places.now ≤ max_held }
    ensures { result ≡ requested (map (place_of In) places.now) }
{
    let mut sum = 0;
    for place in places {
        sum += normal_length(place);
    }
    sum
}

// ---- Storing

// Stores the numbers of a TRB in place number i. Of a control block this is `control_bytes::put_trb`: what both store is `put_place`'s, and
// what they promise is of two layouts.
pub fn put_trb(block: &mut [u8], i: usize, numbers: TrbNumbers)
    requires { head_length + place_length * (i + 1) ≤ length block.old }
    ensures { block.new ≡ patch block.old (head_length + place_length * i) (place_bytes numbers) }
{
    held_bytes::put_place(block, HEAD + held_bytes::PLACE * i, numbers);
}

// Stores the number held and the state; all else stays.
pub fn put_head(block: &mut [u8], state: u8, held: u16)
    requires { head_length ≤ length block.old }
    ensures { block.new ≡ set (set (set block.old 4 (held % 256)) 5 (held / 256)) 6 state }
{
    let [low, high] = held.to_le_bytes();
    block[4] = low;
    block[5] = high;
    block[STATE_AT] = state;
}

// Stores the address of an unsupported TRB.
pub fn put_address(block: &mut [u8], addr: u64)
    requires { head_length ≤ length block.old }
    ensures { block.new ≡ patch block.old 8 (le_bytes 8 addr) }
{
    buffers::copy_into(block, ADDRESS_AT, &addr.to_le_bytes());
}

// The first `held` places become blank.
pub fn blank_places(block: &mut [u8], held: usize)
    requires { (held ≤ max_held) × (block_length ≤ length block.old) }
    ensures { block.new ≡ patch block.old head_length (replicate (place_length * held) 0) }
{
    held_bytes::blank_bytes(block, HEAD, held_bytes::PLACE * held);
}

// Stores the layout, the ids and the mode.
pub fn put_ids(block: &mut [u8], endpoint_id: u8, slot_id: u8, mode: u8)
    requires { head_length ≤ length block.old }
    ensures { block.new ≡ patch block.old 0 (in_layout ∷ endpoint_id ∷ slot_id ∷ mode ∷ []) }
{
    buffers::copy_into(
        block,
        0,
        &[held_bytes::IN_LAYOUT, endpoint_id, slot_id, mode],
    );
}
