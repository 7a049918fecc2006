// The log: records of 32 bytes, little-endian, one for each effect, in the order of effect. Where a record is meant by its number, the
// contract asks that the log has it: a fact of the log and the number, which no type of one of them has.
#![tactic(auto)]

ghost use Rattle.std.specs.Prelude.{◌≡◌, [], ◌∷◌, ◌+◌, ◌*◌, ◌/◌, ◌≤◌, map, length};
ghost use Rattle.std.specs.Simd.{first_chunks};
ghost use Rattle.trb.specs.Limits.{record_length};
ghost use Rattle.call_log.specs.Records.{encode, decode, record_at, blank, transfer_event, guest_write, in_request, control_request, when};
ghost use Rattle.call_log.specs.Calls.{Put, Meets, counted};
ghost use Rattle.call_log.specs.Logs.{records_in};
ghost use Rattle.call_log.specs.First.{first_records};

use trb::{CompletionCode, EndpointId, SlotId, UsbRequest};

// The kinds are numbers and no enum: a log that is read can have any byte there.
pub const KIND_WRITE: u8 = 1;

pub const KIND_EVENT: u8 = 2;

pub const KIND_REQUEST: u8 = 3;

// What a record's bytes say: numbers and no enums, since any byte may stand there and is read as it is. Bytes 5 to 7, 30 and 31 are zero in
// every record that is made here.
#[derive(Clone, Copy)]
pub struct Record {
    pub kind: u8,
    pub code: u8,
    pub flag: u8,
    pub endpoint_id: EndpointId,
    pub slot_id: SlotId,
    pub address: u64,
    pub length: u32,
    pub start: u32,
    pub request_type: u8,
    pub request: u8,
    pub value: u16,
    pub index: u16,
}

// A record of this kind for these ids, in which all else is zero.
fn blank(kind: u8, endpoint_id: EndpointId, slot_id: SlotId) -> Record
    ensures { result ≡ blank kind endpoint_id slot_id }
{
    Record {
        kind,
        code: 0,
        flag: 0,
        endpoint_id,
        slot_id,
        address: 0,
        length: 0,
        start: 0,
        request_type: 0,
        request: 0,
        value: 0,
        index: 0,
    }
}

// A transfer event; ports `EventTrb::new_transfer_event_trb`.
pub fn transfer_event(
    trb_pointer: u64,
    trb_transfer_length: u32,
    completion_code: CompletionCode,
    event_data: bool,
    endpoint_id: EndpointId,
    slot_id: SlotId,
) -> Record
    ensures { result ≡ transfer_event trb_pointer trb_transfer_length completion_code event_data endpoint_id slot_id }
{
    Record {
        code: u8::from(completion_code),
        flag: u8::from(event_data),
        address: trb_pointer,
        length: trb_transfer_length,
        ..blank(KIND_EVENT, endpoint_id, slot_id)
    }
}

// A write of `length` of the device's bytes, from `start` on, to guest memory.
pub fn guest_write(
    address: u64,
    length: u32,
    start: u32,
    endpoint_id: EndpointId,
    slot_id: SlotId,
) -> Record
    ensures { result ≡ guest_write address «length» start endpoint_id slot_id }
{
    Record {
        address,
        length,
        start,
        ..blank(KIND_WRITE, endpoint_id, slot_id)
    }
}

// A request to the device for `length` bytes, for the TD whose first TRB is at `address`.
pub fn in_request(address: u64, length: u32, endpoint_id: EndpointId, slot_id: SlotId) -> Record
    ensures { result ≡ in_request address «length» endpoint_id slot_id }
{
    Record {
        address,
        length,
        ..blank(KIND_REQUEST, endpoint_id, slot_id)
    }
}

// A control request to the device.
pub fn control_request(usb_request: UsbRequest, endpoint_id: EndpointId, slot_id: SlotId) -> Record
    ensures { result ≡ control_request usb_request endpoint_id slot_id }
{
    Record {
        address: usb_request.address,
        length: usb_request.length,
        request_type: usb_request.request_type,
        request: usb_request.request,
        value: usb_request.value,
        index: usb_request.index,
        ..blank(KIND_REQUEST, endpoint_id, slot_id)
    }
}

// The bytes of a record.
fn encoded(record: Record) -> [u8; trb::RECORD_LENGTH]
    ensures { result ≡ encode «record» }
{
    let mut cells = [0; trb::RECORD_LENGTH];
    cells[0] = record.kind;
    cells[1] = record.code;
    cells[2] = record.flag;
    cells[3] = record.endpoint_id.0;
    cells[4] = record.slot_id.0;
    cells[8..16].copy_from_slice(&record.address.to_le_bytes());
    cells[16..20].copy_from_slice(&record.length.to_le_bytes());
    cells[20..24].copy_from_slice(&record.start.to_le_bytes());
    cells[24] = record.request_type;
    cells[25] = record.request;
    cells[26..28].copy_from_slice(&record.value.to_le_bytes());
    cells[28..30].copy_from_slice(&record.index.to_le_bytes());
    cells
}

// Writes a record as the log's record number `index`.
#[tactic(auto, unfolding(crate::specs::Logs::logged, crate::specs::Logs::encode_all))]
pub fn put_record(log: &mut [u8], index: usize, record: Record)
    requires { record_length * (index + 1) ≤ length log.old }
    ensures { Put log.old index («record» ∷ []) log.new }
{
    let cells = encoded(record);
    buffers::copy_into(log, trb::RECORD_LENGTH * index, &cells);
}

// Writes a record where it is due, behind `count` records, and returns how many there are then.
#[tactic(auto, using(crate::proofs::LogLaws::logged_none))]
pub fn put_when(log: &mut [u8], count: usize, due: bool, record: Record) -> usize
    requires { record_length * (count + 1) ≤ length log.old }
    ensures { Meets (counted count (when due «record»)) count log.old result log.new }
{
    if due {
        put_record(log, count, record);
        count + 1
    } else {
        count
    }
}

// Writes a record and, where it is due, a second one behind it, and returns how many there are then.
pub fn put_then(log: &mut [u8], count: usize, first: Record, due: bool, second: Record) -> usize
    requires { record_length * (count + 2) ≤ length log.old }
    ensures { Meets (counted count (first ∷ when due second)) count log.old result log.new }
{
    put_record(log, count, first);
    put_when(log, count + 1, due, second)
}

// What the bytes of a record say.
pub fn decoded(cells: &[u8; trb::RECORD_LENGTH]) -> Record
    ensures { result ≡ decode cells.now }
{
    Record {
        kind: cells[0],
        code: cells[1],
        flag: cells[2],
        endpoint_id: EndpointId(cells[3]),
        slot_id: SlotId(cells[4]),
        address: buffers::le64(cells, 8),
        length: buffers::le32(cells, 16),
        start: buffers::le32(cells, 20),
        request_type: cells[24],
        request: cells[25],
        value: buffers::le16(cells, 26),
        index: buffers::le16(cells, 28),
    }
}

// The records of a log, each by its bytes; fewer bytes than a record behind them are left out.
pub fn records(log: &[u8]) -> &[[u8; trb::RECORD_LENGTH]]
    ensures cells { result.now ≡ first_chunks record_length (length log.now / record_length) log.now }
    ensures each { map decode result.now ≡ records_in (length log.now / record_length) log.now }
    ensures count { length result.now ≡ length log.now / record_length }
{
    log.as_chunks().0
}

// The bytes of a log's first records, or all of a log that has not so many.
pub fn first_records(log: &[u8], records: usize) -> &[u8]
    ensures { result.now ≡ first_records records log.now }
{
    let end = records.saturating_mul(trb::RECORD_LENGTH).min(log.len());
    &log[..end]
}

// What record number `index` of a log says.
pub fn read_record(log: &[u8], index: usize) -> Record
    requires { record_length * (index + 1) ≤ length log.now }
    ensures { result ≡ record_at log.now index }
{
    decoded(&records(log)[index])
}
