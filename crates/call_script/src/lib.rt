// One line of a call script: the call that it asks for.
#![tactic(auto)]

ghost use Rattle.std.specs.Prelude.{◌≡◌};
ghost use Rattle.call_script.specs.Limits.{script_limits};
ghost use Rattle.call_script.specs.Calls.{mode_of, status_of, in_state_of, control_state_of, transfer_type_of, release_of, trb_fields, line_trb, one_region, two_regions, window_call, buffers_call, ported_creation, mode_creation, in_creation, four_creation, release_creation, control_creation, submit_call, hold_call, append_call, result_call, no_result_call, cancel_call, in_state_call, control_state_call, make_up_call, row_result_call, row_call, time_call, capture_call, numbered_call, raw_call, call_of};
ghost use Rattle.call_script.specs.RawLines.{decode_line, encode_line, raw_line_of};

use capture_file::CaptureTime;
pub use capture_record::InTransferType;
use capture_record::UsbDevice;
use control_block::GuestRelease;
use guest_memory::Regions;
use in_td::InMode;
use raw_trb::DecodedTrb;
use script_fields::{Fields, RawFields};
use script_trb::TrbFields;
use trb::{
    ControlSubmissionState, ControlTransferState, EndpointId, InTrbProcessingStatus, SlotId,
    TdBasedNormalSubmissionState, TransferTrb,
};

// ---- Limits: each has this name here and one in specs/Limits.antt; `script_limits` ties the two.

// Bytes of guest memory, both regions together.
pub const MAX_WINDOW: usize = 0x140000;

// Bytes of the lent log: as many as a row asks for.
pub const MAX_LENT_LOG: usize = trb::MIN_ROW_LOG;

// Bytes of the lent collect buffer.
pub const MAX_LENT_COLLECT: usize = 0x10000;

// Bytes of device data: as many as guest memory can have.
pub const MAX_SCRIPT_DATA: usize = MAX_WINDOW;

#[derive(Clone, Copy)]
pub struct ScriptLimits {
    pub window: usize,
    pub log: usize,
    pub collect: usize,
    pub script_data: usize,
}

// The constants are the numbers of specs/Limits.antt.
pub fn script_limits() -> ScriptLimits
    ensures { result ≡ script_limits }
{
    ScriptLimits {
        window: MAX_WINDOW,
        log: MAX_LENT_LOG,
        collect: MAX_LENT_COLLECT,
        script_data: MAX_SCRIPT_DATA,
    }
}

const MAX_BYTE: u64 = 0xff;

const MAX_BUS: u64 = 0xffff;

const MAX_WORD: u64 = 0xffff_ffff;

// ---- Calls

// A device result: Success on IN is SuccessfulControlIn on control.
#[derive(Clone, Copy)]
pub enum DeviceStatus {
    Success,
    Stall,
    TransactionError,
    Disconnect,
    SuccessfulControlOut,
}

#[derive(Clone, Copy)]
pub enum Call {
    Window(Regions),
    Buffers(usize, usize),
    CreateIn(EndpointId, SlotId, InMode),
    CreateControl(EndpointId, SlotId, GuestRelease),
    Submit(TransferTrb),
    Complete(Option<DeviceStatus>, usize),
    Cancel,
    Hold(TransferTrb),
    MakeUpIn(TdBasedNormalSubmissionState),
    MakeUpControl(ControlTransferState, ControlSubmissionState, bool, u32),
    AppendTrb(TransferTrb),
    AppendResult(InTrbProcessingStatus, u32),
    CompleteRow(usize),
    Time(CaptureTime),
    Captured(UsbDevice, InTransferType),
}

// ---- Numbers that stand for a case. Where a line has no limit of the number, any other one is none. Tables, and no `From` or `TryFrom`:
// but for `DeviceStatus` the types are other crates', and what a number stands for is its line's.

#[tactic(auto, unfolding(crate::specs::Calls::mode_of, script_trb::specs::Tables::row_of))]
fn mode_of(number: u64) -> InMode
    ensures { result ≡ mode_of number }
{
    match number {
        1 => InMode::Strict,
        _ => InMode::AsPorted,
    }
}

#[tactic(auto, unfolding(crate::specs::Calls::status_of, script_trb::specs::Tables::row_of))]
fn status_of(number: u64) -> DeviceStatus
    ensures { result ≡ status_of number }
{
    match number {
        1 => DeviceStatus::Stall,
        2 => DeviceStatus::TransactionError,
        3 => DeviceStatus::Disconnect,
        4 => DeviceStatus::SuccessfulControlOut,
        _ => DeviceStatus::Success,
    }
}

#[tactic(auto, unfolding(crate::specs::Calls::in_state_of, script_trb::specs::Tables::row_of))]
fn in_state_of(number: u64) -> TdBasedNormalSubmissionState
    ensures { result ≡ in_state_of number }
{
    match number {
        1 => TdBasedNormalSubmissionState::CollectingTd,
        2 => TdBasedNormalSubmissionState::AwaitingRealTransfer,
        3 => TdBasedNormalSubmissionState::AwaitingLocalCompletion,
        _ => TdBasedNormalSubmissionState::SubmissionDue,
    }
}

#[tactic(auto, unfolding(crate::specs::Calls::control_state_of, script_trb::specs::Tables::row_of))]
fn control_state_of(number: u64) -> ControlSubmissionState
    ensures { result ≡ control_state_of number }
{
    match number {
        1 => ControlSubmissionState::CollectingTd,
        2 => ControlSubmissionState::AwaitingControlRequest,
        _ => ControlSubmissionState::NoTrbSubmitted,
    }
}

#[tactic(auto, unfolding(crate::specs::Calls::transfer_type_of, script_trb::specs::Tables::row_of))]
fn transfer_type_of(number: u64) -> Option<InTransferType>
    ensures { result ≡ transfer_type_of number }
{
    match number {
        1 => Some(InTransferType::Interrupt),
        3 => Some(InTransferType::Bulk),
        _ => None,
    }
}

#[tactic(auto, unfolding(crate::specs::Calls::release_of, script_trb::specs::Tables::row_of))]
fn release_of(number: u64) -> Option<GuestRelease>
    ensures { result ≡ release_of number }
{
    match number {
        4 => Some(GuestRelease::Release4),
        5 => Some(GuestRelease::Release5),
        _ => None,
    }
}

// ---- Calls of each letter

// `w BASE LEN`: the other region is empty, at 0.
#[tactic(auto, unfolding(crate::specs::Calls::one_region))]
fn one_region(fields: Fields) -> Option<Call>
    ensures { result ≡ one_region fields }
{
    let [base, length] = script_fields::within(fields, [u64::MAX, MAX_WINDOW as u64])?;
    Some(Call::Window(guest_memory::guest_regions(base, length as usize, 0, 0)))
}

// `w BASE LEN BASE LEN`
#[tactic(auto, unfolding(crate::specs::Calls::two_regions))]
fn two_regions(fields: Fields) -> Option<Call>
    ensures { result ≡ two_regions fields }
{
    let [low_base, low, high_base, high] = script_fields::within(
        fields,
        [u64::MAX, MAX_WINDOW as u64, u64::MAX, MAX_WINDOW as u64],
    )?;
    let low_length = low as usize;
    let high_length = high as usize;
    if MAX_WINDOW < low_length + high_length {
        return None;
    }
    let window = guest_memory::guest_regions(low_base, low_length, high_base, high_length);
    Some(Call::Window(window))
}

#[tactic(auto, unfolding(crate::specs::Calls::window_call))]
fn window(fields: Fields) -> Option<Call>
    ensures { result ≡ window_call fields }
{
    if fields.count == 2 {
        one_region(fields)
    } else {
        two_regions(fields)
    }
}

// `b LOG COLLECT`
#[tactic(auto, unfolding(crate::specs::Calls::buffers_call))]
fn buffers(fields: Fields) -> Option<Call>
    ensures { result ≡ buffers_call fields }
{
    let [log, collect] = script_fields::within(
        fields,
        [MAX_LENT_LOG as u64, MAX_LENT_COLLECT as u64],
    )?;
    Some(Call::Buffers(log as usize, collect as usize))
}

// `i EP SLOT`: as ported.
#[tactic(auto, unfolding(crate::specs::Calls::ported_creation))]
fn ported_creation(fields: Fields) -> Option<Call>
    ensures { result ≡ ported_creation fields }
{
    let [endpoint, slot] = script_fields::within(fields, [MAX_BYTE, MAX_BYTE])?;
    Some(Call::CreateIn(
        EndpointId(endpoint as u8),
        SlotId(slot as u8),
        InMode::AsPorted,
    ))
}

// `i EP SLOT MODE`
#[tactic(auto, unfolding(crate::specs::Calls::mode_creation))]
fn mode_creation(fields: Fields) -> Option<Call>
    ensures { result ≡ mode_creation fields }
{
    let [endpoint, slot, mode] = script_fields::within(fields, [MAX_BYTE, MAX_BYTE, 1])?;
    Some(Call::CreateIn(
        EndpointId(endpoint as u8),
        SlotId(slot as u8),
        mode_of(mode),
    ))
}

#[tactic(auto, unfolding(crate::specs::Calls::in_creation))]
fn in_creation(fields: Fields) -> Option<Call>
    ensures { result ≡ in_creation fields }
{
    if fields.count == 2 {
        ported_creation(fields)
    } else {
        mode_creation(fields)
    }
}

// `c EP SLOT`: for release 4.
#[tactic(auto, unfolding(crate::specs::Calls::four_creation))]
fn four_creation(fields: Fields) -> Option<Call>
    ensures { result ≡ four_creation fields }
{
    let [endpoint, slot] = script_fields::within(fields, [MAX_BYTE, MAX_BYTE])?;
    let endpoint_id = EndpointId(endpoint as u8);
    Some(Call::CreateControl(endpoint_id, SlotId(slot as u8), GuestRelease::Release4))
}

// `c EP SLOT RELEASE`
#[tactic(auto, unfolding(crate::specs::Calls::release_creation))]
fn release_creation(fields: Fields) -> Option<Call>
    ensures { result ≡ release_creation fields }
{
    let [endpoint, slot, number] = script_fields::within(fields, [MAX_BYTE, MAX_BYTE, u64::MAX])?;
    let release = release_of(number)?;
    Some(Call::CreateControl(EndpointId(endpoint as u8), SlotId(slot as u8), release))
}

#[tactic(auto, unfolding(crate::specs::Calls::control_creation))]
fn control_creation(fields: Fields) -> Option<Call>
    ensures { result ≡ control_creation fields }
{
    if fields.count == 2 {
        four_creation(fields)
    } else {
        release_creation(fields)
    }
}

fn trb_fields(fields: Fields) -> TrbFields
    ensures { result ≡ trb_fields fields }
{
    let [kind, addr, flags, a, b] = fields.numbers;
    TrbFields {
        kind,
        addr,
        flags,
        a,
        b,
    }
}

// `KIND ADDR FLAGS A B` behind a letter.
fn line_trb(fields: Fields) -> Option<TransferTrb>
    ensures { result ≡ line_trb fields }
{
    if fields.count == script_fields::MAX_NUMBERS {
        script_trb::script_trb(trb_fields(fields))
    } else {
        None
    }
}

// `s`: submit.
#[tactic(auto, unfolding(crate::specs::Calls::submit_call))]
fn submission(fields: Fields) -> Option<Call>
    ensures { result ≡ submit_call fields }
{
    line_trb(fields).map(|t| Call::Submit(t))
}

// `h`: into the block's next place.
#[tactic(auto, unfolding(crate::specs::Calls::hold_call))]
fn holding(fields: Fields) -> Option<Call>
    ensures { result ≡ hold_call fields }
{
    line_trb(fields).map(|t| Call::Hold(t))
}

// `q`: to the end of the row that is being written down.
#[tactic(auto, unfolding(crate::specs::Calls::append_call))]
fn row_trb(fields: Fields) -> Option<Call>
    ensures { result ≡ append_call fields }
{
    line_trb(fields).map(|t| Call::AppendTrb(t))
}

// `d STATUS N`
#[tactic(auto, unfolding(crate::specs::Calls::result_call))]
fn completion_with_result(fields: Fields) -> Option<Call>
    ensures { result ≡ result_call fields }
{
    let [status, n] = script_fields::within(fields, [4, MAX_SCRIPT_DATA as u64])?;
    Some(Call::Complete(Some(status_of(status)), n as usize))
}

// `l N`
#[tactic(auto, unfolding(crate::specs::Calls::no_result_call))]
fn completion_without(fields: Fields) -> Option<Call>
    ensures { result ≡ no_result_call fields }
{
    let [n] = script_fields::within(fields, [MAX_SCRIPT_DATA as u64])?;
    Some(Call::Complete(None, n as usize))
}

// `x`
#[tactic(auto, unfolding(crate::specs::Calls::cancel_call, script_fields::specs::Fields::within_limits, script_fields::specs::Fields::all_at_most))]
fn cancel(fields: Fields) -> Option<Call>
    ensures { result ≡ cancel_call fields }
{
    (fields.count == 0).then_some(Call::Cancel)
}

// `p STATE`
#[tactic(auto, unfolding(crate::specs::Calls::in_state_call))]
fn in_state(fields: Fields) -> Option<Call>
    ensures { result ≡ in_state_call fields }
{
    let [state] = script_fields::within(fields, [3])?;
    Some(Call::MakeUpIn(in_state_of(state)))
}

// `p PHASE STATE DIRECTION LENGTH`
#[tactic(auto, unfolding(crate::specs::Calls::control_state_call))]
fn control_state(fields: Fields) -> Option<Call>
    ensures { result ≡ control_state_call fields }
{
    let [phase, state, direction, n] = script_fields::within(fields, [4, 2, 1, MAX_WORD])?;
    let phase = control_block::phase_of(phase as u8);
    Some(Call::MakeUpControl(phase, control_state_of(state), direction == 1, n as u32))
}

#[tactic(auto, unfolding(crate::specs::Calls::make_up_call))]
fn made_up(fields: Fields) -> Option<Call>
    ensures { result ≡ make_up_call fields }
{
    if fields.count == 1 {
        in_state(fields)
    } else {
        control_state(fields)
    }
}

// `e STATUS N`: of the row's next TD.
#[tactic(auto, unfolding(crate::specs::Calls::row_result_call))]
fn row_result(fields: Fields) -> Option<Call>
    ensures { result ≡ row_result_call fields }
{
    let [status, n] = script_fields::within(fields, [3, MAX_WORD])?;
    Some(Call::AppendResult(answer_numbers::status_of(status as u8), n as u32))
}

// `r N`: the row call.
#[tactic(auto, unfolding(crate::specs::Calls::row_call))]
fn row_completion(fields: Fields) -> Option<Call>
    ensures { result ≡ row_call fields }
{
    let [n] = script_fields::within(fields, [MAX_SCRIPT_DATA as u64])?;
    Some(Call::CompleteRow(n as usize))
}

// `t SECONDS MICROSECONDS`: the time of what follows.
#[tactic(auto, unfolding(crate::specs::Calls::time_call))]
fn time(fields: Fields) -> Option<Call>
    ensures { result ≡ time_call fields }
{
    let [seconds, microseconds] = script_fields::within(fields, [MAX_WORD, MAX_WORD])?;
    Some(Call::Time(CaptureTime {
        seconds: seconds as u32,
        microseconds: microseconds as u32,
    }))
}

// `m BUS DEVICE TYPE`: what captures say of the endpoint.
#[tactic(auto, unfolding(crate::specs::Calls::capture_call))]
fn captured(fields: Fields) -> Option<Call>
    ensures { result ≡ capture_call fields }
{
    let [bus, device, number] = script_fields::within(fields, [MAX_BUS, MAX_BYTE, u64::MAX])?;
    let transfer_type = transfer_type_of(number)?;
    let device = UsbDevice {
        bus_number: bus as u16,
        device_address: device as u8,
    };
    Some(Call::Captured(device, transfer_type))
}

// The call of a letter and numbers.
#[tactic(auto, unfolding(crate::specs::Calls::numbered_call, script_trb::specs::Tables::row_of))]
fn numbered_call(fields: Fields) -> Option<Call>
    ensures { result ≡ numbered_call fields }
{
    match fields.letter {
        b'w' => window(fields),
        b'b' => buffers(fields),
        b'i' => in_creation(fields),
        b'c' => control_creation(fields),
        b's' => submission(fields),
        b'd' => completion_with_result(fields),
        b'l' => completion_without(fields),
        b'x' => cancel(fields),
        b'q' => row_trb(fields),
        b'e' => row_result(fields),
        b'r' => row_completion(fields),
        b'h' => holding(fields),
        b'p' => made_up(fields),
        b't' => time(fields),
        b'm' => captured(fields),
        _ => None,
    }
}

// `u ADDR RAW`: a raw TRB, decoded. No number of a script has so many digits, so that a line which has one has no numbers alone.
#[tactic(auto, unfolding(crate::specs::Calls::raw_call))]
fn raw_call(fields: RawFields) -> Option<Call>
    ensures { result ≡ raw_call fields }
{
    if fields.before.letter != b'u' || fields.before.count != 1 {
        return None;
    }
    let decoded = raw_trb_decoder::decode(fields.bytes);
    Some(Call::Submit(TransferTrb {
        variant: decoded.variant,
        addr: fields.before.numbers[0],
        cycle_bit: decoded.cycle_bit,
    }))
}

// The call of a line, which comes without its line feed.
#[tactic(auto, unfolding(crate::specs::Calls::call_of))]
pub fn read_call(line: &[u8]) -> Option<Call>
    ensures { result ≡ call_of line.now }
{
    if let Some(fields) = script_fields::read_fields(line) {
        return numbered_call(fields);
    }
    raw_call(script_fields::read_raw_fields(line)?)
}

// ---- Lines of the program `raw_trbs`

#[derive(Clone, Copy)]
pub enum RawLine {
    Decode(DecodedTrb),
    Encode(TransferTrb),
}

// `d RAW`
#[tactic(auto, unfolding(crate::specs::RawLines::decode_line))]
fn decoding(fields: RawFields) -> Option<RawLine>
    ensures { result ≡ decode_line fields }
{
    if fields.before.letter != b'd' || fields.before.count != 0 {
        return None;
    }
    Some(RawLine::Decode(raw_trb_decoder::decode(fields.bytes)))
}

// `e KIND FLAGS A B`
#[tactic(auto, unfolding(crate::specs::RawLines::encode_line))]
fn encoding(fields: Fields) -> Option<RawLine>
    ensures { result ≡ encode_line fields }
{
    if fields.letter != b'e' || fields.count != 4 {
        return None;
    }
    let [kind, flags, a, b, _] = fields.numbers;
    let t = script_trb::script_trb(TrbFields {
        kind,
        addr: 0,
        flags,
        a,
        b,
    })?;
    Some(RawLine::Encode(t))
}

// What a line, which comes without its line feed, asks of `raw_trbs`.
#[tactic(auto, unfolding(crate::specs::RawLines::raw_line_of))]
pub fn read_raw_line(line: &[u8]) -> Option<RawLine>
    ensures { result ≡ raw_line_of line.now }
{
    if let Some(fields) = script_fields::read_fields(line) {
        return encoding(fields);
    }
    decoding(script_fields::read_raw_fields(line)?)
}
