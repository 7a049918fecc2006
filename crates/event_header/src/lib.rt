// The usbmon header of an event; ports `log_packet`.
#![tactic(auto)]

ghost use Rattle.std.specs.Prelude.{◌≡◌};
ghost use Rattle.capture_record.specs.Headers.{no_setup, usb_header};
ghost use Rattle.capture_record.specs.Events.{completion, control, without_setup, pipe_address, submission_flag, completion_flag, in_status, error_status, setup_of, endpoint_zero, header_of};

use capture_record::{CaptureEvent, InPipe, Stamp, TransferError, UsbHeader, UsbSetup};
use trb::{InTrbProcessingStatus, UsbRequest};

// The event type E.
const FAILURE: u8 = b'E';

// The setup flag of a header without setup bytes, and the data flag of an error.
const WITHOUT_SETUP: u8 = b'-';

const ERROR_FLAG: u8 = b'E';

const TRB_ERROR_STATUS: u32 = 4294967274;

// What every header has: whose transfer it is of, when, and its identifier. It has no setup bytes, and all else is 0.
fn blank(stamp: Stamp, id: u64) -> UsbHeader
    ensures { result ≡ usb_header stamp.device stamp.time.seconds stamp.time.microseconds id 0 0 0 without_setup 0 0 0 0 no_setup }
{
    UsbHeader {
        id,
        device_address: stamp.device.device_address,
        bus_number: stamp.device.bus_number,
        setup_flag: WITHOUT_SETUP,
        seconds: stamp.time.seconds as u64,
        microseconds: stamp.time.microseconds,
        ..UsbHeader::default()
    }
}

// ---- Codes

// The id's low bit is the direction. Ports `endpoint_address`.
fn pipe_address(pipe: InPipe) -> u8
    ensures { result ≡ pipe_address pipe }
{
    pipe.endpoint_id.0.rotate_right(1)
}

fn submission_flag(to_host: bool) -> u8
    ensures { result ≡ submission_flag to_host }
{
    if to_host { b'<' } else { 0 }
}

fn completion_flag(to_host: bool) -> u8
    ensures { result ≡ completion_flag to_host }
{
    if to_host { 0 } else { b'>' }
}

fn endpoint_zero(to_host: bool) -> u8
    ensures { result ≡ endpoint_zero to_host }
{
    if to_host { 128 } else { 0 }
}

// A table: each failure has a number of its own.
fn error_status(error: TransferError) -> u32
    ensures { result ≡ error_status error }
{
    match error {
        TransferError::Disconnect => capture_record::DISCONNECTED,
        TransferError::Stall => capture_record::STALLED,
        TransferError::TransactionError => capture_record::TRANSACTION_FAILED,
    }
}

fn in_status(status: InTrbProcessingStatus) -> u32
    ensures { result ≡ in_status status }
{
    match status {
        InTrbProcessingStatus::Success => 0,
        failed => error_status(capture_record::transfer_error(failed)),
    }
}

// Ports `build_setup_bytes`.
fn setup_of(request: UsbRequest) -> UsbSetup
    ensures { result ≡ setup_of request }
{
    UsbSetup {
        request_type: request.request_type,
        request: request.request,
        value: request.value,
        index: request.index,
        length: (request.length & 0xffff) as u16,
    }
}

// ---- Headers

fn in_submission_header(stamp: Stamp, pipe: InPipe, id: u64, length: u32) -> UsbHeader
    ensures { result ≡ header_of stamp.device stamp.time.seconds stamp.time.microseconds (CaptureEvent.InSubmission pipe id length) 0 }
{
    UsbHeader {
        event_type: capture_record::SUBMISSION,
        transfer_type: u8::from(pipe.transfer_type),
        endpoint_address: pipe_address(pipe),
        data_flag: submission_flag(capture_record::is_in(pipe.endpoint_id)),
        length,
        ..blank(stamp, id)
    }
}

fn in_completion_header(
    stamp: Stamp,
    pipe: InPipe,
    id: u64,
    status: InTrbProcessingStatus,
    count: u32,
) -> UsbHeader
    ensures { result ≡ header_of stamp.device stamp.time.seconds stamp.time.microseconds (CaptureEvent.InCompletion pipe id status) count }
{
    let input = capture_record::is_in(pipe.endpoint_id);
    UsbHeader {
        event_type: capture_record::COMPLETION,
        transfer_type: u8::from(pipe.transfer_type),
        endpoint_address: pipe_address(pipe),
        data_flag: completion_flag(input),
        status: in_status(status),
        length: count,
        delivered: if input { count } else { 0 },
        ..blank(stamp, id)
    }
}

fn control_submission_header(stamp: Stamp, request: UsbRequest, count: u32) -> UsbHeader
    ensures { result ≡ header_of stamp.device stamp.time.seconds stamp.time.microseconds (CaptureEvent.ControlSubmission request) count }
{
    let input = capture_record::to_host(request);
    UsbHeader {
        event_type: capture_record::SUBMISSION,
        transfer_type: capture_record::CONTROL,
        endpoint_address: endpoint_zero(input),
        setup_flag: capture_record::WITH_SETUP,
        data_flag: submission_flag(input),
        length: if input { request.length } else { 0 },
        delivered: if input { 0 } else { count },
        setup: setup_of(request),
        ..blank(stamp, request.address)
    }
}

// Of a control transfer that ended well.
fn control_completion_header(
    stamp: Stamp,
    to_host: bool,
    id: u64,
    length: u32,
    delivered: u32,
) -> UsbHeader
    ensures { result ≡ usb_header stamp.device stamp.time.seconds stamp.time.microseconds id completion control (endpoint_zero to_host) without_setup (completion_flag to_host) 0 length delivered no_setup }
{
    UsbHeader {
        event_type: capture_record::COMPLETION,
        transfer_type: capture_record::CONTROL,
        endpoint_address: endpoint_zero(to_host),
        data_flag: completion_flag(to_host),
        length,
        delivered,
        ..blank(stamp, id)
    }
}

fn control_error_header(
    stamp: Stamp,
    to_host: bool,
    error: TransferError,
    request: UsbRequest,
    collected: u32,
) -> UsbHeader
    ensures { result ≡ header_of stamp.device stamp.time.seconds stamp.time.microseconds (CaptureEvent.ControlError to_host error request collected) 0 }
{
    UsbHeader {
        event_type: FAILURE,
        transfer_type: capture_record::CONTROL,
        endpoint_address: endpoint_zero(to_host),
        setup_flag: capture_record::WITH_SETUP,
        data_flag: ERROR_FLAG,
        status: error_status(error),
        length: collected,
        setup: setup_of(request),
        ..blank(stamp, request.address)
    }
}

fn trb_error_header(stamp: Stamp, id: u64) -> UsbHeader
    ensures { result ≡ header_of stamp.device stamp.time.seconds stamp.time.microseconds (CaptureEvent.TrbError id) 0 }
{
    UsbHeader {
        event_type: FAILURE,
        transfer_type: capture_record::CONTROL,
        data_flag: ERROR_FLAG,
        status: TRB_ERROR_STATUS,
        ..blank(stamp, id)
    }
}

// The usbmon header of an event with a payload of `count` bytes; ports `log_packet`.
pub fn header_of(stamp: Stamp, event: CaptureEvent, count: u32) -> UsbHeader
    ensures { result ≡ header_of stamp.device stamp.time.seconds stamp.time.microseconds event count }
{
    match event {
        CaptureEvent::InSubmission(pipe, id, length) => {
            in_submission_header(stamp, pipe, id, length)
        }
        CaptureEvent::InCompletion(pipe, id, status) => {
            in_completion_header(stamp, pipe, id, status, count)
        }
        CaptureEvent::ControlSubmission(request) => {
            control_submission_header(stamp, request, count)
        }
        CaptureEvent::ControlCompletionIn(id) => {
            control_completion_header(stamp, true, id, count, count)
        }
        CaptureEvent::ControlCompletionOut(id, length) => {
            control_completion_header(stamp, false, id, length, 0)
        }
        CaptureEvent::ControlError(to_host, error, request, collected) => {
            control_error_header(stamp, to_host, error, request, collected)
        }
        CaptureEvent::TrbError(id) => trb_error_header(stamp, id),
    }
}
