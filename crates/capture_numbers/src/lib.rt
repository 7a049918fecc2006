// Captures for C and Rust, by plain numbers: converted and made one; the parts of an event, the record written, the record read.
#![tactic(auto)]

ghost use Rattle.std.specs.Prelude.{◌≡◌, length};
ghost use Rattle.trb.specs.Questions.{first_no};
ghost use Rattle.capture_file.specs.Answers.{capture_length};
ghost use Rattle.capture_convert.specs.Converting.{length_answer, convert_questions, output_after};
ghost use Rattle.capture_merge.specs.Merging as merging;
ghost use Rattle.capture_writer.specs.Writing.{in_numbers, call_of, Writes, WritesHead};
ghost use Rattle.capture_reader.specs.Reading.{ReadsCapture, nothing_read, read_at};
ghost use Rattle.capture_numbers.specs.Captured.{written_by, device_of, pipe_of, error_of, count_by, record_by};

use answer_numbers::Answered;
use capture_file::CaptureTime;
use capture_record::{CaptureEvent, InPipe, InTransferType, Stamp, TransferError, UsbDevice};
use capture_writer::NotWritten;
use trb::EndpointId;

// ---- Files

// The length that a capture has once it is converted; 0 where converting answers 17 or 18.
pub fn converted_length(input: &[u8]) -> usize
    ensures { result ≡ capture_length (length_answer input.now) }
{
    capture_file::answer_length(capture_convert::converted_length(input))
}

// Converts a capture from link type 189 to 220 or back. The number: 0, or 17, 18, 14 with the output as it was.
pub fn convert(input: &[u8], output: &mut [u8]) -> u8
    ensures { (result ≡ first_no (convert_questions input.now (length output.old))) × (output.new ≡ output_after input.now output.old) }
{
    trb::number_of(capture_convert::convert(input, output))
}

// The length of two captures made one; 0 where merging answers 17, 19 or 20.
pub fn merged_length(first: &[u8], second: &[u8]) -> usize
    ensures { result ≡ capture_length (merging.length_answer first.now second.now) }
{
    capture_file::answer_length(capture_merge::merged_length(first, second))
}

// Makes two captures one, ordered by time. The number: 0, or 17, 19, 20, 14 with the output as it was.
pub fn merge(first: &[u8], second: &[u8], output: &mut [u8]) -> u8
    ensures { (result ≡ first_no (merging.merge_questions first.now second.now (length output.old))) × (output.new ≡ merging.output_after first.now second.now output.old) }
{
    trb::number_of(capture_merge::merge(first, second, output))
}

// ---- Records

// 02, R-2: the number of the reader's one question, where the input is no file that the writer can make. The reader gives an Option.
const NO_CAPTURE: u32 = 22;

// What the writer answers. `answer_numbers::counted` for any error would ask `u32: From<E>` and that trait's relation: no plainer.
fn answered(written: Result<usize, NotWritten>) -> Answered
    ensures { written_by result ≡ in_numbers written }
{
    match written {
        Ok(count) => Answered { number: 0, count },
        Err(refusal) => Answered {
            number: u32::from(refusal),
            count: 0,
        },
    }
}

// Writes the record of an event of this device at this time. Plain numbers, since C hands them over.
pub fn write_event(
    output: &mut [u8],
    bus_number: u16,
    device_address: u8,
    seconds: u32,
    microseconds: u32,
    event: CaptureEvent,
    payload: &[u8],
) -> Answered
    ensures { Writes (call_of (device_of bus_number device_address) seconds microseconds event payload.now) output.old (written_by result) output.new }
{
    answered(capture_writer::write_record(
        output,
        Stamp {
            device: UsbDevice {
                bus_number,
                device_address,
            },
            time: CaptureTime {
                seconds,
                microseconds,
            },
        },
        event,
        payload,
    ))
}

// Numbered as a status is; 0, which is no error, counts as a transaction error.
pub fn transfer_error(number: u8) -> TransferError
    ensures { result ≡ error_of number }
{
    capture_record::transfer_error(answer_numbers::status_of(number))
}

// An IN endpoint, of interrupt transfers or else of bulk ones.
pub fn in_pipe(endpoint_id: u8, interrupt: bool) -> InPipe
    ensures { result ≡ pipe_of endpoint_id interrupt }
{
    InPipe {
        endpoint_id: EndpointId(endpoint_id),
        transfer_type: if interrupt {
            InTransferType::Interrupt
        } else {
            InTransferType::Bulk
        },
    }
}

// The file header: 24 is not asked.
pub fn write_file_header(output: &mut [u8]) -> Answered
    ensures { WritesHead output.old (written_by result) output.new }
{
    answered(capture_writer::write_file_header(output))
}

// Counts the records of a capture. The number: 0, or 22 where it is none that the writer writes.
pub fn read_capture(input: &[u8]) -> Answered
    ensures { ReadsCapture input.now (count_by result) }
{
    match capture_reader::read_capture(input) {
        Some(count) => Answered { number: 0, count },
        None => Answered {
            number: NO_CAPTURE,
            count: 0,
        },
    }
}

// What a record gives: 0 or 22; its times; its header's fields, a status below 0 standing as 2^32 less its amount; where in the file its
// payload stands and how long it is; where the next record starts. A number with the values beside it, since C reads it.
#[repr(C)]
#[derive(Clone, Copy, Default)]
pub struct RecordRead {
    pub number: u32,
    pub seconds: u32,
    pub microseconds: u32,
    pub id: u64,
    pub event_type: u8,
    pub transfer_type: u8,
    pub endpoint_address: u8,
    pub device_address: u8,
    pub bus_number: u16,
    pub setup_flag: u8,
    pub data_flag: u8,
    pub header_seconds: u64,
    pub header_microseconds: u32,
    pub status: u32,
    pub length: u32,
    pub delivered: u32,
    pub request_type: u8,
    pub request: u8,
    pub value: u16,
    pub index: u16,
    pub setup_length: u16,
    pub payload_start: usize,
    pub payload_length: usize,
    pub next: usize,
}

fn nothing_read() -> RecordRead
    ensures { record_by result ≡ nothing_read }
{
    RecordRead {
        number: NO_CAPTURE,
        ..RecordRead::default()
    }
}

// Reads the record that starts at byte `at` of a capture, from 24 on. The number: 0, or 22 where none that the writer writes starts there,
// all else being 0.
pub fn read_record(input: &[u8], at: usize) -> RecordRead
    ensures { record_by result ≡ read_at input.now at }
{
    let Some(read) = capture_reader::read_record(input, at) else {
        return nothing_read();
    };
    let header = read.header;
    let setup = header.setup;
    RecordRead {
        number: 0,
        seconds: read.time.seconds,
        microseconds: read.time.microseconds,
        id: header.id,
        event_type: header.event_type,
        transfer_type: header.transfer_type,
        endpoint_address: header.endpoint_address,
        device_address: header.device_address,
        bus_number: header.bus_number,
        setup_flag: header.setup_flag,
        data_flag: header.data_flag,
        header_seconds: header.seconds,
        header_microseconds: header.microseconds,
        status: header.status,
        length: header.length,
        delivered: header.delivered,
        request_type: setup.request_type,
        request: setup.request,
        value: setup.value,
        index: setup.index,
        setup_length: setup.length,
        payload_start: read.payload_start,
        payload_length: read.payload_length,
        next: read.next,
    }
}
