// What a capture records of the calls: the events, the usbmon header of each and its 48 bytes, by definition; which events carry a payload.
// With `event_header` and `header_bytes` it ports pcap/packet.rs and pcap/meta.rs.
#![tactic(auto)]

ghost use Rattle.std.specs.Prelude.{◌≡◌, leb};
ghost use Rattle.capture_record.specs.Events.{transfer_error, odd, to_host, carries};

use capture_file::CaptureTime;
use trb::{EndpointId, InTrbProcessingStatus, UsbRequest};

// The longest that a captured record may be, its header included.
pub const SNAP_LENGTH: u32 = 134217728;

pub const MAX_MICROSECONDS: u32 = 999999;

// Event types: S and C. Bytes, as the transfer type and the flag below are: a header that is read may have any byte there.
pub const SUBMISSION: u8 = b'S';

pub const COMPLETION: u8 = b'C';

// The transfer type of a control endpoint.
pub const CONTROL: u8 = 2;

// The setup flag of a header with setup bytes.
pub const WITH_SETUP: u8 = 0;

// The statuses of transfers that failed: minus 19, 32 and 71, as 32 bits have them.
pub const DISCONNECTED: u32 = 4294967277;

pub const STALLED: u32 = 4294967264;

pub const TRANSACTION_FAILED: u32 = 4294967225;

// Whose transfers are captured.
#[derive(Clone, Copy)]
pub struct UsbDevice {
    pub bus_number: u16,
    pub device_address: u8,
}

// What stands in every record of a transfer: whose it is, and when.
#[derive(Clone, Copy)]
pub struct Stamp {
    pub device: UsbDevice,
    pub time: CaptureTime,
}

// What an IN endpoint's transfers are.
#[derive(Clone, Copy)]
pub enum InTransferType {
    Interrupt = 1,
    Bulk = 3,
}

// The number that a usbmon header has for it.
impl From<InTransferType> for u8 {
    ghost use Rattle.std.specs.Prelude.{◌≡◌};
    ghost use Rattle.capture_record.specs.Events.{type_number};

    ghost from_gives = { λ transfer_type number. number ≡ type_number transfer_type };

    fn from(transfer_type: InTransferType) -> u8 {
        transfer_type as u8
    }
}

// An IN endpoint, by its xHCI id.
#[derive(Clone, Copy)]
pub struct InPipe {
    pub endpoint_id: EndpointId,
    pub transfer_type: InTransferType,
}

// How a control transfer failed.
#[derive(Clone, Copy)]
pub enum TransferError {
    Disconnect,
    Stall,
    TransactionError,
}

// The failure that a device result is. Success, which is none, counts as a transaction error.
pub fn transfer_error(status: InTrbProcessingStatus) -> TransferError
    ensures { result ≡ transfer_error status }
{
    match status {
        InTrbProcessingStatus::Disconnect => TransferError::Disconnect,
        InTrbProcessingStatus::Stall => TransferError::Stall,
        InTrbProcessingStatus::TransactionError | InTrbProcessingStatus::Success => {
            TransferError::TransactionError
        }
    }
}

// What is captured, but for its payload. `u64` is the identifier, the address of a TRB.
#[derive(Clone, Copy)]
pub enum CaptureEvent {
    // The requested length.
    InSubmission(InPipe, u64, u32),
    InCompletion(InPipe, u64, InTrbProcessingStatus),
    ControlSubmission(UsbRequest),
    ControlCompletionIn(u64),
    // The request length.
    ControlCompletionOut(u64, u32),
    // Is the transfer IN; and the collected count.
    ControlError(bool, TransferError, UsbRequest, u32),
    TrbError(u64),
}

// The eight setup bytes (USB 2.0, 9.3).
#[derive(Clone, Copy, Default, PartialEq)]
pub struct UsbSetup {
    pub request_type: u8,
    pub request: u8,
    pub value: u16,
    pub index: u16,
    pub length: u16,
}

// The 48-byte usbmon header; ports `UsbPacketLinktypeHeader`. A status below 0 stands as 2^32 less its amount. Its seconds have 64 bits, so
// that the two times are no `CaptureTime`.
#[derive(Clone, Copy, Default, PartialEq)]
pub struct UsbHeader {
    pub id: u64,
    pub event_type: u8,
    pub transfer_type: u8,
    pub endpoint_address: u8,
    pub device_address: u8,
    pub bus_number: u16,
    pub setup_flag: u8,
    pub data_flag: u8,
    pub seconds: u64,
    pub microseconds: u32,
    pub status: u32,
    pub length: u32,
    pub delivered: u32,
    pub setup: UsbSetup,
}

// Is the endpoint with this id an IN endpoint? Ports `endpoint_direction`.
pub fn is_in(endpoint_id: EndpointId) -> bool
    ensures { result ≡ odd endpoint_id.0 }
{
    endpoint_id.0 % 2 == 1
}

// Does bit 7 of a request type, or of an endpoint address, say IN?
pub fn is_in_byte(byte: u8) -> bool
    ensures { result ≡ leb 128 byte }
{
    128 <= byte
}

// Is the request IN?
pub fn to_host(request: UsbRequest) -> bool
    ensures { result ≡ to_host request }
{
    is_in_byte(request.request_type)
}

// Does a record of the event carry its payload? Ports `packet_payload`. No `matches!`: two of the arms ask a question of their own.
pub fn carries(event: CaptureEvent) -> bool
    ensures { result ≡ carries event }
{
    match event {
        CaptureEvent::InCompletion(pipe, _, _) => is_in(pipe.endpoint_id),
        CaptureEvent::ControlSubmission(request) => !to_host(request),
        CaptureEvent::ControlCompletionIn(_) => true,
        _ => false,
    }
}
