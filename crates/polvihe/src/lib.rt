// What C and Rust call: the product's functions over numbers and lent bytes, exported in one static library. Each asks its
// questions first, and answers with the number of the first no.
#![tactic(auto)]

mod control;
mod in_delivery;
mod row;

ghost use Rattle.std.specs.Prelude.{◌≡◌, ℕ, length, []};
ghost use Rattle.trb.specs.Questions.{first_no};
ghost use Rattle.log_text.specs.Widths.{max_line};
ghost use Rattle.capture_file.specs.Answers.{capture_length};
ghost use Rattle.capture_convert.specs.Converting.{length_answer, convert_questions, output_after};
ghost use Rattle.capture_merge.specs.Merging as merging;
ghost use Rattle.guest_memory.specs.Places.{memory_of};
ghost use Rattle.guest_memory.specs.Regions.{guest_regions};
ghost use Rattle.held_bytes.specs.Numbers.{trb_numbers, trb_of};
ghost use Rattle.in_bytes.specs.Layout.{block_length, mode_of};
ghost use Rattle.in_place_questions.specs.Lent.{lent_log};
ghost use Rattle.in_place_submission.specs.Submission.{SubmitsInPlace};
ghost use Rattle.in_place.specs.InPlace.{result_of, CreatesInPlace, CancelsInPlace, CompletesInPlace};
ghost use Rattle.raw_numbers.specs.RawNumbers.{raw_trb, numbered_trb, room_questions, Encodes};
ghost use Rattle.capture_writer.specs.Writing.{call_of, Writes, WritesHead};
ghost use Rattle.capture_reader.specs.Reading.{ReadsCapture, read_at};
ghost use Rattle.stored_logs.specs.Stored.{check_questions, Compacts, Prints};
ghost use Rattle.answer_numbers.specs.Numbers.{status_of};
ghost use Rattle.capture_numbers.specs.Captured.{written_by, device_of, pipe_of, error_of, request_of, count_by, record_by};
ghost use Rattle.polvihe.specs.GuestMemory.{CarriesOut};

use answer_numbers::{Answered, CompletionAnswered};
use capture_numbers::RecordRead;
use capture_record::CaptureEvent;
use guest_memory::GuestMemory;
use held_bytes::TrbNumbers;
use trb::UsbRequest;

// ---- Guest memory: C hands over two bases and two slices.

// Performs the writes of a log, in its order, on guest memory in two regions, with the device's data. The number: 0, or 13, 10, 11
// with guest memory as it was.
#[unsafe(no_mangle)]
pub extern "C" fn polvihe_carry_out(
    log: &[u8],
    data: &[u8],
    low_base: u64,
    low: &mut [u8],
    high_base: u64,
    high: &mut [u8],
) -> u32
    ensures { CarriesOut log.now «data».now (memory_of low_base low.old high_base high.old) result (memory_of low_base low.new high_base high.new) }
{
    let mut memory = GuestMemory {
        low_base,
        low,
        high_base,
        high,
    };
    trb::number_of(carry_out::carry_out(log, data, &mut memory)) as u32
}

// ---- Raw TRBs

// A TRB by numbers, since C reads it, but for its address: xHCI's type, flags, data pointer or event data or setup bytes, and transfer
// length.
#[repr(C)]
#[derive(Clone, Copy)]
pub struct RawTrb {
    pub kind: u8,
    pub flags: u8,
    pub transfer_length: u32,
    pub value: u64,
}

// Decodes the 16 bytes of a TRB in the ring to the numbers that a submission takes.
#[unsafe(no_mangle)]
pub extern "C" fn polvihe_decode_trb(raw: &[u8; 16]) -> RawTrb
    ensures { (a : ℕ) → trb_of (trb_numbers result.kind result.flags a result.value result.transfer_length) ≡ raw_trb raw.now a }
{
    let bytes = *raw;
    let numbers = raw_numbers::decode_trb(bytes, 0);
    RawTrb {
        kind: numbers.kind,
        flags: numbers.flags,
        transfer_length: numbers.transfer_length,
        value: numbers.value,
    }
}

// Encodes a TRB into the 16 bytes that `raw` starts with. The number: 0, or 1 where they are too few, 23 or 4 with `raw` as it was.
#[unsafe(no_mangle)]
pub extern "C" fn polvihe_encode_trb(
    kind: u8,
    flags: u8,
    value: u64,
    transfer_length: u32,
    raw: &mut [u8],
) -> u8
    ensures { Encodes (room_questions (numbered_trb kind flags value transfer_length) raw.old) (numbered_trb kind flags value transfer_length) raw.old result raw.new }
{
    let numbers = TrbNumbers {
        kind,
        flags,
        addr: 0,
        value,
        transfer_length,
    };
    trb::number_of(raw_numbers::encode_trb(numbers, raw))
}

// ---- Stored logs, of any length

// Question 10: is the log a multiple of 32 bytes with every kind 1, 2 or 3? Answers 10, or 0.
#[tactic(auto, unfolding(trb::specs::Questions::first_no))]
#[unsafe(no_mangle)]
pub extern "C" fn polvihe_check_log(log: &[u8]) -> u32
    ensures { result ≡ first_no (check_questions log.now) }
{
    trb::number_of(stored_logs::check(log)) as u32
}

// Compacts a log in its own buffer, and counts the records kept.
#[unsafe(no_mangle)]
pub extern "C" fn polvihe_compact(log: &mut [u8]) -> Answered
    ensures { Compacts log.old result log.new }
{
    stored_logs::compact(log)
}

// Characters that the line of a record takes at most.
#[unsafe(no_mangle)]
pub extern "C" fn polvihe_line_room() -> usize
    ensures { result ≡ max_line }
{
    stored_logs::line_room()
}

// Writes a line for each record of a log, or of whole records of one, to the text buffer's start, and counts the characters.
#[unsafe(no_mangle)]
pub extern "C" fn polvihe_print(log: &[u8], text: &mut [u8]) -> Answered
    ensures { Prints log.now text.old result text.new }
{
    stored_logs::print(log, text)
}

// ---- Captures, of any length

// The length that a capture has once it is converted; 0 where converting answers 17 or 18.
#[unsafe(no_mangle)]
pub extern "C" fn polvihe_converted_length(input: &[u8]) -> usize
    ensures { result ≡ capture_length (length_answer input.now) }
{
    capture_numbers::converted_length(input)
}

// Converts a capture from link type 189 to 220 or back. The number: 0, or 17, 18, 14 with the output as it was.
#[unsafe(no_mangle)]
pub extern "C" fn polvihe_convert(input: &[u8], output: &mut [u8]) -> u8
    ensures { (result ≡ first_no (convert_questions input.now (length output.old))) × (output.new ≡ output_after input.now output.old) }
{
    capture_numbers::convert(input, output)
}

// The length of two captures made one; 0 where merging answers 17, 19 or 20.
#[unsafe(no_mangle)]
pub extern "C" fn polvihe_merged_length(first: &[u8], second: &[u8]) -> usize
    ensures { result ≡ capture_length (merging.length_answer first.now second.now) }
{
    capture_numbers::merged_length(first, second)
}

// Makes two captures one, ordered by time. The number: 0, or 17, 19, 20, 14 with the output as it was.
#[unsafe(no_mangle)]
pub extern "C" fn polvihe_merge(first: &[u8], second: &[u8], output: &mut [u8]) -> u8
    ensures { (result ≡ first_no (merging.merge_questions first.now second.now (length output.old))) × (output.new ≡ merging.output_after first.now second.now output.old) }
{
    capture_numbers::merge(first, second, output)
}

// ---- Captures written: each call writes over the output's start and counts the bytes. The number: 0, or 24, 14 with the output as it was.

// The file header: 24 is not asked.
#[unsafe(no_mangle)]
pub extern "C" fn polvihe_write_file_header(output: &mut [u8]) -> Answered
    ensures { WritesHead output.old (written_by result) output.new }
{
    capture_numbers::write_file_header(output)
}

// A request of so many bytes on an IN endpoint, of interrupt transfers or else of bulk ones.
#[unsafe(no_mangle)]
pub extern "C" fn polvihe_write_in_submission(
    output: &mut [u8],
    bus_number: u16,
    device_address: u8,
    seconds: u32,
    microseconds: u32,
    endpoint_id: u8,
    interrupt: bool,
    id: u64,
    length: u32,
) -> Answered
    ensures { Writes (call_of (device_of bus_number device_address) seconds microseconds (CaptureEvent.InSubmission (pipe_of endpoint_id interrupt) id length) []) output.old (written_by result) output.new }
{
    let event = CaptureEvent::InSubmission(
        capture_numbers::in_pipe(endpoint_id, interrupt),
        id,
        length,
    );
    capture_numbers::write_event(
        output,
        bus_number,
        device_address,
        seconds,
        microseconds,
        event,
        &[],
    )
}

// Its completion with a device result, numbered as `answer_numbers::status_of` has it, and the device's data.
#[unsafe(no_mangle)]
pub extern "C" fn polvihe_write_in_completion(
    output: &mut [u8],
    bus_number: u16,
    device_address: u8,
    seconds: u32,
    microseconds: u32,
    endpoint_id: u8,
    interrupt: bool,
    id: u64,
    status: u8,
    data: &[u8],
) -> Answered
    ensures { Writes (call_of (device_of bus_number device_address) seconds microseconds (CaptureEvent.InCompletion (pipe_of endpoint_id interrupt) id (status_of status)) «data».now) output.old (written_by result) output.new }
{
    let event = CaptureEvent::InCompletion(
        capture_numbers::in_pipe(endpoint_id, interrupt),
        id,
        answer_numbers::status_of(status),
    );
    capture_numbers::write_event(
        output,
        bus_number,
        device_address,
        seconds,
        microseconds,
        event,
        data,
    )
}

// A control request, with the bytes that were collected where it is OUT.
#[unsafe(no_mangle)]
pub extern "C" fn polvihe_write_control_submission(
    output: &mut [u8],
    bus_number: u16,
    device_address: u8,
    seconds: u32,
    microseconds: u32,
    id: u64,
    request_type: u8,
    request: u8,
    value: u16,
    index: u16,
    length: u32,
    collected: &[u8],
) -> Answered
    ensures { Writes (call_of (device_of bus_number device_address) seconds microseconds (CaptureEvent.ControlSubmission (request_of id request_type request value index length)) collected.now) output.old (written_by result) output.new }
{
    let usb_request = UsbRequest {
        address: id,
        request_type,
        request,
        value,
        index,
        length,
    };
    let event = CaptureEvent::ControlSubmission(usb_request);
    capture_numbers::write_event(
        output,
        bus_number,
        device_address,
        seconds,
        microseconds,
        event,
        collected,
    )
}

// The completion of a control IN request, with the device's data.
#[unsafe(no_mangle)]
pub extern "C" fn polvihe_write_control_completion_in(
    output: &mut [u8],
    bus_number: u16,
    device_address: u8,
    seconds: u32,
    microseconds: u32,
    id: u64,
    data: &[u8],
) -> Answered
    ensures { Writes (call_of (device_of bus_number device_address) seconds microseconds (CaptureEvent.ControlCompletionIn id) «data».now) output.old (written_by result) output.new }
{
    let event = CaptureEvent::ControlCompletionIn(id);
    capture_numbers::write_event(
        output,
        bus_number,
        device_address,
        seconds,
        microseconds,
        event,
        data,
    )
}

// The completion of a control OUT request of this length.
#[unsafe(no_mangle)]
pub extern "C" fn polvihe_write_control_completion_out(
    output: &mut [u8],
    bus_number: u16,
    device_address: u8,
    seconds: u32,
    microseconds: u32,
    id: u64,
    length: u32,
) -> Answered
    ensures { Writes (call_of (device_of bus_number device_address) seconds microseconds (CaptureEvent.ControlCompletionOut id length) []) output.old (written_by result) output.new }
{
    let event = CaptureEvent::ControlCompletionOut(id, length);
    capture_numbers::write_event(
        output,
        bus_number,
        device_address,
        seconds,
        microseconds,
        event,
        &[],
    )
}

// A control transfer that failed: is it IN, how it failed, its request, and how many bytes were collected.
#[unsafe(no_mangle)]
pub extern "C" fn polvihe_write_control_error(
    output: &mut [u8],
    bus_number: u16,
    device_address: u8,
    seconds: u32,
    microseconds: u32,
    direction: bool,
    error: u8,
    id: u64,
    request_type: u8,
    request: u8,
    value: u16,
    index: u16,
    length: u32,
    collected: u32,
) -> Answered
    ensures { Writes (call_of (device_of bus_number device_address) seconds microseconds (CaptureEvent.ControlError direction (error_of error) (request_of id request_type request value index length) collected) []) output.old (written_by result) output.new }
{
    let usb_request = UsbRequest {
        address: id,
        request_type,
        request,
        value,
        index,
        length,
    };
    let event = CaptureEvent::ControlError(
        direction,
        capture_numbers::transfer_error(error),
        usb_request,
        collected,
    );
    capture_numbers::write_event(
        output,
        bus_number,
        device_address,
        seconds,
        microseconds,
        event,
        &[],
    )
}

// A control TRB that is reported as an error.
#[unsafe(no_mangle)]
pub extern "C" fn polvihe_write_trb_error(
    output: &mut [u8],
    bus_number: u16,
    device_address: u8,
    seconds: u32,
    microseconds: u32,
    id: u64,
) -> Answered
    ensures { Writes (call_of (device_of bus_number device_address) seconds microseconds (CaptureEvent.TrbError id) []) output.old (written_by result) output.new }
{
    let event = CaptureEvent::TrbError(id);
    capture_numbers::write_event(
        output,
        bus_number,
        device_address,
        seconds,
        microseconds,
        event,
        &[],
    )
}

// ---- Captures read

// Counts the records of a capture. The number: 0, or 22 where it is none that the calls above write.
#[unsafe(no_mangle)]
pub extern "C" fn polvihe_read_capture(input: &[u8]) -> Answered
    ensures { ReadsCapture input.now (count_by result) }
{
    capture_numbers::read_capture(input)
}

// Reads the record that starts at byte `at` of a capture, from 24 on. The number: 0, or 22 where none that the calls above write starts
// there, all else being 0.
#[unsafe(no_mangle)]
pub extern "C" fn polvihe_read_record(input: &[u8], at: usize) -> RecordRead
    ensures { record_by result ≡ read_at input.now at }
{
    capture_numbers::read_record(input, at)
}

// ---- The IN endpoint in place: its block is a lent row of `polvihe_in_block_length` bytes, whose layout is in_bytes'

// Bytes of an IN endpoint's block.
#[unsafe(no_mangle)]
pub extern "C" fn polvihe_in_block_length() -> usize
    ensures { result ≡ block_length }
{
    in_bytes::BLOCK
}

// Makes a fresh block; mode 0 as ported, any other strict. Answers 0, or 1, 12.
#[unsafe(no_mangle)]
pub extern "C" fn polvihe_in_create(block: &mut [u8], endpoint_id: u8, slot_id: u8, mode: u8) -> u32
    ensures { CreatesInPlace (record { 0 = endpoint_id }) (record { 0 = slot_id }) (mode_of mode) block.old result block.new }
{
    let created = in_place::create(block, endpoint_id, slot_id, mode);
    trb::number_of(created) as u32
}

// Submits a TRB by numbers: xHCI's type, flags (by weight: 1 cycle bit, 2 chain, 4 interrupt on completion, 8 interrupt on short, 16
// immediate data, 32 direction), address, data pointer or event data or setup bytes, and transfer length; with guest memory in two regions.
#[unsafe(no_mangle)]
pub extern "C" fn polvihe_in_submit(
    log: &mut [u8],
    block: &mut [u8],
    kind: u8,
    flags: u8,
    addr: u64,
    value: u64,
    transfer_length: u32,
    low_base: u64,
    low_len: usize,
    high_base: u64,
    high_len: usize,
) -> Answered
    ensures { SubmitsInPlace (lent_log log.old block.old) (trb_of (trb_numbers kind flags addr value transfer_length)) (guest_regions low_base low_len high_base high_len) log.old block.old result log.new block.new }
{
    let numbers = TrbNumbers {
        kind,
        flags,
        addr,
        value,
        transfer_length,
    };
    let regions = guest_memory::guest_regions(low_base, low_len, high_base, high_len);
    in_place_submission::submit_trb(log, block, numbers, regions)
}

// Completes what was submitted last, with so many bytes of the device's data. Status: 0 Success, 1 Stall, 2 a transaction error, 3 a
// disconnect; any other number, no device result is given. The answer is handed on field by field: copied whole it is stored in parts that
// cut a field in two, and the caller waits for them where it reads that field.
#[unsafe(no_mangle)]
pub extern "C" fn polvihe_in_complete(
    log: &mut [u8],
    block: &mut [u8],
    status: u8,
    data_length: usize,
) -> CompletionAnswered
    ensures { CompletesInPlace (lent_log log.old block.old) (result_of status) data_length log.old block.old result log.new block.new }
{
    let answered = in_place::next_completion(log, block, status, data_length);
    CompletionAnswered {
        number: answered.number,
        result: answered.result,
        code: answered.code,
        located: answered.located,
        cycle_bit: answered.cycle_bit,
        records: answered.records,
        address: answered.address,
    }
}

// Empties the block: a submission is due. Answers 0, or 1.
#[unsafe(no_mangle)]
pub extern "C" fn polvihe_in_cancel(block: &mut [u8]) -> u32
    ensures { CancelsInPlace block.old result block.new }
{
    trb::number_of(in_place::cancel(block)) as u32
}
