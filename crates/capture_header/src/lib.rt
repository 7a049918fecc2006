// The usbmon header in a record's bytes, the event that it names, and the header that the writer makes of that event.
#![tactic(auto)]

ghost use Rattle.std.specs.Prelude.{◌≡◌, ◌≤◌, length};
ghost use Rattle.capture_record.specs.Headers.{header_in};
ghost use Rattle.capture_header.specs.Made.{type_named, pipe_named, status_named, request_named, submission_named, control_named, in_named, event_named, count_named, made_again};

use capture_file::CaptureTime;
use capture_record::{CaptureEvent, InPipe, InTransferType, Stamp, UsbDevice, UsbHeader, UsbSetup};
use trb::{EndpointId, InTrbProcessingStatus, UsbRequest};

// What 48 bytes say.
#[tactic(auto, unfolding(capture_record::specs::Headers::header_in))]
pub fn header_in(link: &[u8]) -> UsbHeader
    requires { 48 ≤ length link.now }
    ensures { result ≡ header_in link.now }
{
    UsbHeader {
        id: buffers::le64(link, 0),
        event_type: link[8],
        transfer_type: link[9],
        endpoint_address: link[10],
        device_address: link[11],
        bus_number: buffers::le16(link, 12),
        setup_flag: link[14],
        data_flag: link[15],
        seconds: buffers::le64(link, 16),
        microseconds: buffers::le32(link, 24),
        status: buffers::le32(link, 28),
        length: buffers::le32(link, 32),
        delivered: buffers::le32(link, 36),
        setup: UsbSetup {
            request_type: link[40],
            request: link[41],
            value: buffers::le16(link, 42),
            index: buffers::le16(link, 44),
            length: buffers::le16(link, 46),
        },
    }
}

// ---- The event that a header names

// 1 interrupt, any other number bulk: by a match that cannot fail, where `TryFrom` would.
fn type_named(number: u8) -> InTransferType
    ensures { result ≡ type_named number }
{
    match number {
        1 => InTransferType::Interrupt,
        _ => InTransferType::Bulk,
    }
}

// The endpoint address is the id with its low bit first.
fn pipe_named(header: UsbHeader) -> InPipe
    ensures { result ≡ pipe_named header }
{
    InPipe {
        endpoint_id: EndpointId(header.endpoint_address.rotate_left(1)),
        transfer_type: type_named(header.transfer_type),
    }
}

// Any number but these three is success: by a match that cannot fail, where `TryFrom` would.
fn status_named(status: u32) -> InTrbProcessingStatus
    ensures { result ≡ status_named status }
{
    match status {
        capture_record::DISCONNECTED => InTrbProcessingStatus::Disconnect,
        capture_record::STALLED => InTrbProcessingStatus::Stall,
        capture_record::TRANSACTION_FAILED => InTrbProcessingStatus::TransactionError,
        _ => InTrbProcessingStatus::Success,
    }
}

fn request_named(header: UsbHeader, length: u32) -> UsbRequest
    ensures { result ≡ request_named header length }
{
    let setup = header.setup;
    UsbRequest {
        address: header.id,
        request_type: setup.request_type,
        request: setup.request,
        value: setup.value,
        index: setup.index,
        length,
    }
}

fn submission_named(header: UsbHeader) -> UsbRequest
    ensures { result ≡ submission_named header }
{
    if capture_record::is_in_byte(header.setup.request_type) {
        request_named(header, header.length)
    } else {
        request_named(header, header.setup.length as u32)
    }
}

fn control_named(header: UsbHeader) -> CaptureEvent
    ensures { result ≡ control_named header }
{
    match header.event_type {
        capture_record::SUBMISSION => CaptureEvent::ControlSubmission(submission_named(header)),
        capture_record::COMPLETION if capture_record::is_in_byte(header.endpoint_address) => {
            CaptureEvent::ControlCompletionIn(header.id)
        }
        capture_record::COMPLETION => {
            CaptureEvent::ControlCompletionOut(header.id, header.length)
        }
        _ if header.setup_flag == capture_record::WITH_SETUP => CaptureEvent::ControlError(
            capture_record::is_in_byte(header.endpoint_address),
            capture_record::transfer_error(status_named(header.status)),
            request_named(header, header.setup.length as u32),
            header.length,
        ),
        _ => CaptureEvent::TrbError(header.id),
    }
}

fn in_named(header: UsbHeader) -> CaptureEvent
    ensures { result ≡ in_named header }
{
    if header.event_type == capture_record::SUBMISSION {
        CaptureEvent::InSubmission(pipe_named(header), header.id, header.length)
    } else {
        CaptureEvent::InCompletion(pipe_named(header), header.id, status_named(header.status))
    }
}

#[tactic(auto, unfolding(crate::specs::Made::event_named))]
fn event_named(header: UsbHeader) -> CaptureEvent
    ensures { result ≡ event_named header }
{
    if header.transfer_type == capture_record::CONTROL {
        control_named(header)
    } else {
        in_named(header)
    }
}

#[tactic(auto, unfolding(crate::specs::Made::count_named))]
fn count_named(header: UsbHeader) -> u32
    ensures { result ≡ count_named header }
{
    if header.event_type == capture_record::SUBMISSION {
        header.delivered
    } else {
        header.length
    }
}

// The header that the writer makes of that event.
#[tactic(auto, unfolding(crate::specs::Made::made_again))]
pub fn made_again(time: CaptureTime, header: UsbHeader) -> UsbHeader
    ensures { result ≡ made_again time.seconds time.microseconds header }
{
    let device = UsbDevice {
        bus_number: header.bus_number,
        device_address: header.device_address,
    };
    event_header::header_of(
        Stamp { device, time },
        event_named(header),
        count_named(header),
    )
}
