// What a TRB makes of a control transfer: its request, the bytes asked for and the bytes collected; and the TRB's data, its size, whether
// it lies in guest memory, and its collecting on OUT. Ports `instantiate_setup_trb`, `collect_transfer_length` and
// `collect_transfer_data`.
#![tactic(auto)]

ghost use Rattle.std.specs.Prelude.{◌≡◌, ◌+◌, ◌*◌, ◌≤◌, true, not, ◌||◌, [], if◌then◌else◌, length};
ghost use Rattle.buffers.specs.LittleEndian.{le_bytes};
ghost use Rattle.buffers.specs.Patch.{patch};
ghost use Rattle.trb.specs.Limits.{record_length, max_collected};
ghost use Rattle.guest_memory.specs.Places.{bytes_at};
ghost use Rattle.guest_memory.specs.Lent.{seen};
ghost use Rattle.call_log.specs.Calls.{Meets, counted};
ghost use Rattle.control_transfer.specs.Data.{data_of, immediate_length, size_of, in_reach, bytes_of};
ghost use Rattle.control_transfer.specs.Transfers.{request_of, begun, lengthened, grown, taken_by, held_into, transfer_after, requests_of, collects, collectable};

use control_block::ControlTransfer;
use guest_memory::{GuestView, Regions};
use phase_table::Outcome;
use trb::{
    ControlTransferState, EndpointId, SetupStageTrb, SlotId, TransferTrbVariant, UsbRequest,
};

// ---- The data of a TRB

// Bytes of an immediate TRB, at most.
pub const MAX_IMMEDIATE: u32 = 8;

// What a DataStage or Normal TRB moves. By default nothing, as any other TRB.
#[derive(Clone, Copy, Default)]
pub struct TrbData {
    pub data_pointer: u64,
    pub transfer_length: u32,
    pub immediate_data: bool,
}

// The data that a TRB moves; of any other than a Data Stage or Normal TRB, none.
pub fn data_of(variant: TransferTrbVariant) -> TrbData
    ensures { result ≡ data_of variant }
{
    match variant {
        TransferTrbVariant::DataStage(data_stage) => TrbData {
            data_pointer: data_stage.data_pointer,
            transfer_length: data_stage.transfer_length,
            immediate_data: data_stage.immediate_data,
        },
        TransferTrbVariant::Normal(normal) => TrbData {
            data_pointer: normal.data_pointer,
            transfer_length: normal.transfer_length,
            immediate_data: normal.immediate_data,
        },
        _ => TrbData::default(),
    }
}

fn immediate_length(length: u32) -> u32
    ensures { result ≡ immediate_length «length» }
{
    length.min(MAX_IMMEDIATE)
}

// The bytes that the TRB counts on IN and collects on OUT.
pub fn size_of(data: TrbData) -> u32
    ensures { result ≡ size_of «data» }
{
    if data.immediate_data {
        immediate_length(data.transfer_length)
    } else {
        data.transfer_length
    }
}

// Question 6 is not asked of immediate data in an OUT transfer.
fn is_range_asked(input: bool, immediate: bool) -> bool
    ensures { result ≡ (input || not immediate) }
{
    input || !immediate
}

// Question 6, of the data of a TRB that is held; `input`: the transfer is IN.
#[tactic(auto, unfolding(crate::specs::Data::in_reach))]
pub fn is_in_reach(input: bool, data: TrbData, regions: Regions) -> bool
    ensures { result ≡ in_reach input «data» regions }
{
    !is_range_asked(input, data.immediate_data)
        || guest_memory::range_inside(regions, data.data_pointer, data.transfer_length)
}

// Lays the `count` lowest bytes of the pointer over `collect` from index `at` on.
fn collect_immediate(collect: &mut [u8], at: usize, pointer: u64, count: usize)
    requires { (at + count ≤ length collect.old) × (count ≤ 8) }
    ensures { collect.new ≡ patch collect.old at (le_bytes count pointer) }
{
    let cells = pointer.to_le_bytes();
    buffers::copy_into(collect, at, &cells[..count]);
}

// Lays the `count` bytes of guest memory from `pointer` on over `collect` from index `at` on.
fn collect_memory(collect: &mut [u8], at: usize, pointer: u64, count: u32, memory: &GuestView<'_>)
    requires { at + count ≤ length collect.old }
    ensures { collect.new ≡ patch collect.old at (bytes_at (seen memory.now) pointer count) }
{
    let part = guest_memory::get_slice(memory, pointer, count);
    buffers::copy_into(collect, at, part);
}

// Lays the bytes of a TRB of an OUT transfer over `collect` from index `at` on; ports `collect_transfer_data`.
#[tactic(auto, unfolding(crate::specs::Data::bytes_of))]
pub fn collect_transfer_data(collect: &mut [u8], at: usize, data: TrbData, memory: &GuestView<'_>)
    requires { at + size_of «data» ≤ length collect.old }
    ensures { collect.new ≡ patch collect.old at (bytes_of (seen memory.now) «data») }
{
    if data.immediate_data {
        let count = immediate_length(data.transfer_length);
        collect_immediate(collect, at, data.data_pointer, count as usize);
    } else {
        collect_memory(collect, at, data.data_pointer, data.transfer_length, memory);
    }
}

// ---- The transfer

// The request of a Setup TRB at `addr`.
fn request_of(setup_stage: SetupStageTrb, addr: u64) -> UsbRequest
    ensures { result ≡ request_of setup_stage addr }
{
    UsbRequest {
        address: addr,
        request_type: setup_stage.request_type,
        request: setup_stage.request,
        value: setup_stage.value,
        index: setup_stage.index,
        length: 0,
    }
}

// The transfer that a Setup TRB at `addr` starts, in this phase.
pub fn instantiate_setup_trb(
    phase: ControlTransferState,
    setup_stage: SetupStageTrb,
    addr: u64,
) -> ControlTransfer
    ensures { result ≡ begun phase setup_stage addr }
{
    ControlTransfer {
        phase,
        // Bit 7: one comparison, of which a function in `trb`, where captures could share it, would make nothing plainer.
        direction: 128 <= setup_stage.request_type,
        request: request_of(setup_stage, addr),
        collected: 0,
    }
}

// The request for `size` bytes more; ports `collect_transfer_length`.
fn lengthen(request: UsbRequest, size: u32) -> UsbRequest
    ensures { result ≡ lengthened request size }
{
    UsbRequest {
        length: request.length.wrapping_add(size),
        ..request
    }
}

// `size` bytes more are asked for on IN, collected on OUT.
pub fn grow(transfer: ControlTransfer, size: u32) -> ControlTransfer
    requires { transfer.collected ≤ max_collected }
    ensures { result ≡ grown transfer size }
{
    if transfer.direction {
        ControlTransfer {
            request: lengthen(transfer.request, size),
            ..transfer
        }
    } else {
        ControlTransfer {
            collected: transfer.collected + size as usize,
            ..transfer
        }
    }
}

// What a TRB that is held makes of the transfer.
fn take_into(transfer: ControlTransfer, variant: TransferTrbVariant, addr: u64) -> ControlTransfer
    requires { transfer.collected ≤ max_collected }
    ensures { result ≡ taken_by variant addr transfer }
{
    match variant {
        TransferTrbVariant::SetupStage(setup) => instantiate_setup_trb(transfer.phase, setup, addr),
        TransferTrbVariant::DataStage(_) | TransferTrbVariant::Normal(_) => {
            grow(transfer, size_of(data_of(variant)))
        }
        _ => transfer,
    }
}

// The transfer after a TRB, in the phase before: as it was, where the TRB is not held.
fn take_held(
    outcome: Outcome,
    transfer: ControlTransfer,
    variant: TransferTrbVariant,
    addr: u64,
) -> ControlTransfer
    requires { transfer.collected ≤ max_collected }
    ensures { result ≡ held_into outcome variant addr transfer }
{
    if phase_table::is_held(outcome) {
        take_into(transfer, variant, addr)
    } else {
        transfer
    }
}

// The transfer after a TRB.
#[tactic(auto, unfolding(crate::specs::Transfers::transfer_after))]
pub fn transfer_after(
    outcome: Outcome,
    transfer: ControlTransfer,
    variant: TransferTrbVariant,
    addr: u64,
) -> ControlTransfer
    requires { transfer.collected ≤ max_collected }
    ensures { result ≡ transfer_after outcome variant addr transfer }
{
    let phase = phase_table::phase_after(transfer.phase, outcome);
    control_block::at_phase(take_held(outcome, transfer, variant, addr), phase)
}

// Logs the request behind `count` records, where it goes to the device, and returns how many records there are then.
// Log and count stay apart: the count comes of the walk's progress and goes into what the call returns, both without the log.
pub fn log_request(
    log: &mut [u8],
    count: usize,
    outcome: Outcome,
    request: UsbRequest,
    endpoint_id: EndpointId,
    slot_id: SlotId,
) -> usize
    requires { record_length * (count + 1) ≤ length log.old }
    ensures { Meets (counted count (requests_of outcome request endpoint_id slot_id)) count log.old result log.new }
{
    let record = call_log::control_request(request, endpoint_id, slot_id);
    call_log::put_when(log, count, phase_table::is_request(outcome), record)
}

// Are the TRB's bytes collected? `input`: the transfer is IN.
#[tactic(auto, unfolding(crate::specs::Transfers::collects))]
pub fn is_collected(outcome: Outcome, input: bool) -> bool
    ensures { result ≡ collects outcome input }
{
    phase_table::is_held(outcome) && !input
}

// Collects this data of a TRB just behind the `collected` bytes, on OUT.
pub fn collect_data(
    collect: &mut [u8],
    outcome: Outcome,
    input: bool,
    collected: usize,
    data: TrbData,
    memory: &GuestView<'_>,
)
    requires { (max_collected ≤ length collect.old) × (collectable outcome input collected «data» ≡ true) }
    ensures { collect.new ≡ patch collect.old collected (if collects outcome input then bytes_of (seen memory.now) «data» else []) }
{
    if is_collected(outcome, input) {
        collect_transfer_data(collect, collected, data, memory);
    }
}
