// Captures written: a file header and records, each by a call of its own over a lent buffer, from its start on.
#![tactic(auto)]

ghost use Rattle.std.specs.Prelude.{cond, ◌≡◌, ◌+◌, ◌≤◌, length};
ghost use Rattle.buffers.specs.Patch.{patch};
ghost use Rattle.capture_record.specs.Events.{snap_length, carries};
ghost use Rattle.capture_writer.specs.Writing.{in_numbers, call_of, record_bytes, WritesHead, Writes};

use capture_file::{
    CaptureTime, FILE_HEADER_LENGTH, FRONT_LENGTH, LinkType, RECORD_HEADER_LENGTH,
    USB_HEADER_LENGTH,
};
use capture_record::{CaptureEvent, Stamp, UsbHeader};

// 02, R-2: why nothing is written, by the number of the question that said no. The buffer cannot take the whole header or record;
// the microseconds or the captured length are out of range.
// Asked by an `if`: `trb::ask` answers a `Refusal`, of which none is 24, and `then_some(()).ok_or(..)?` is no plainer.
#[derive(Clone, Copy)]
pub enum NotWritten {
    OutputTooShort = 14,
    OutOfRange = 24,
}

// The number that documents 01 and 02 give it.
impl From<NotWritten> for u32 {
    ghost use Rattle.std.specs.Prelude.{◌≡◌};
    ghost use Rattle.capture_writer.specs.Writing.{refusal_number};

    ghost from_gives = { λ refusal number. number ≡ refusal_number refusal };

    fn from(refusal: NotWritten) -> u32 {
        refusal as u32
    }
}

// Writes the header of a capture file, and returns its length, or 14 and leaves the buffer as it was.
pub fn write_file_header(output: &mut [u8]) -> Result<usize, NotWritten>
    ensures { WritesHead output.old (in_numbers result) output.new }
{
    if output.len() < FILE_HEADER_LENGTH {
        return Err(NotWritten::OutputTooShort);
    }
    let cells = capture_file::file_head(0, 0, capture_record::SNAP_LENGTH, LinkType::Short as u32);
    buffers::copy_into(output, 0, &cells);
    Ok(FILE_HEADER_LENGTH)
}

// How many of `count` bytes of payload a record of the event carries.
fn delivered_count(event: CaptureEvent, count: usize) -> usize
    ensures { result ≡ cond (carries event) count 0 }
{
    if capture_record::carries(event) {
        count
    } else {
        0
    }
}

// Lays a record over the buffer's start.
fn put_record(output: &mut [u8], time: CaptureTime, header: UsbHeader, payload: &[u8])
    requires { (64 + length payload.now ≤ length output.old) × (48 + length payload.now ≤ snap_length) }
    ensures { output.new ≡ patch output.old 0 (record_bytes time.seconds time.microseconds header payload.now) }
{
    let captured = (USB_HEADER_LENGTH + payload.len()) as u32;
    let front = capture_file::record_head(time, captured, captured);
    let link = header_bytes::header_bytes(header);
    buffers::copy_into(output, 0, &front);
    buffers::copy_into(output, RECORD_HEADER_LENGTH, &link);
    buffers::copy_into(output, FRONT_LENGTH, payload);
}

// Writes the record of an event, and returns its length: 24 where the microseconds pass 999,999 or the captured length the snap length,
// then 14 where the buffer cannot take the whole record. It is as it was on both.
pub fn write_record(
    output: &mut [u8],
    stamp: Stamp,
    event: CaptureEvent,
    payload: &[u8],
) -> Result<usize, NotWritten>
    ensures { Writes (call_of stamp.device stamp.time.seconds stamp.time.microseconds event payload.now) output.old (in_numbers result) output.new }
{
    let delivered = delivered_count(event, payload.len());
    if capture_record::MAX_MICROSECONDS < stamp.time.microseconds
        || capture_record::SNAP_LENGTH as usize - USB_HEADER_LENGTH < delivered
    {
        return Err(NotWritten::OutOfRange);
    }
    if output.len() < FRONT_LENGTH + delivered {
        return Err(NotWritten::OutputTooShort);
    }
    let count = (payload.len() & 0xffff_ffff) as u32;
    let header = event_header::header_of(stamp, event, count);
    put_record(output, stamp.time, header, &payload[..delivered]);
    Ok(FRONT_LENGTH + delivered)
}
