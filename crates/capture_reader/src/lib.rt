// Captures read: whether a file is one that the writer makes, and each record's times, header fields and payload.
#![tactic(auto)]

ghost use Rattle.std.specs.Prelude.{true, ◌≡◌, ◌+◌, ◌≤◌, length};
ghost use Rattle.std.specs.Bool.{OnTrue};
ghost use Rattle.capture_file.specs.Reading.{captured_at, record_at, whole_record};
ghost use Rattle.capture_record.specs.Events.{snap_length};
ghost use Rattle.capture_header.specs.Made.{made};
ghost use Rattle.capture_reader.specs.Reading.{made_head, count_of, in_count, ReadsCapture, made_record, in_numbers, read_at};

use capture_file::{CaptureTime, FILE_HEADER_LENGTH, FRONT_LENGTH, LinkType, RECORD_HEADER_LENGTH};
use capture_record::UsbHeader;

// What the record at a position gives: its time and header; where in the file its payload stands, and how long it is; where the
// next record starts.
// Places in the file and no slice: they are handed on to C, which has the file.
#[derive(Clone, Copy)]
pub struct CapturedRecord {
    pub time: CaptureTime,
    pub header: UsbHeader,
    pub payload_start: usize,
    pub payload_length: usize,
    pub next: usize,
}

// ---- Records

// Is the record that the bytes start with, a whole one, one that the writer makes?
fn is_made(rest: &[u8]) -> bool
    requires whole { whole_record 0 snap_length rest.now ≡ true }
    requires long { 64 ≤ length rest.now }
    ensures { result ≡ made (record_at 0 rest.now) }
{
    let time = capture_tests::time_at(rest);
    let captured = capture_tests::captured_at(rest);
    let original = capture_tests::original_at(rest);
    let header = capture_header::header_in(&rest[RECORD_HEADER_LENGTH..FRONT_LENGTH]);
    time.microseconds <= capture_record::MAX_MICROSECONDS
        && original == captured
        && header == capture_header::made_again(time, header)
}

// Do the bytes start with a record that the writer makes?
#[tactic(auto, unfolding(crate::specs::Reading::made_record))]
fn is_record(rest: &[u8]) -> bool
    ensures answer { result ≡ made_record rest.now }
    ensures within { OnTrue result ((64 ≤ length rest.now) × (16 + captured_at rest.now ≤ length rest.now)) }
{
    capture_tests::whole_record(rest, 0, capture_record::SNAP_LENGTH) && is_made(rest)
}

// Counts the records behind a file header.
fn count_records(records: &[u8]) -> Option<usize>
    ensures { in_count result ≡ count_of records.now }
{
    // No iterator: only a record that is found whole says where the next one starts, and one that is not ends the walk.
    let mut rest = records;
    let mut count = 0;
    while !rest.is_empty() {
        if !is_record(rest) {
            return None;
        }
        count += 1;
        rest = capture_tests::split_record(rest).1;
    }
    Some(count)
}

// ---- Files

// Do the bytes start with the writer's file header?
fn is_head(input: &[u8]) -> bool
    ensures answer { result ≡ made_head input.now }
    ensures within { OnTrue result (24 ≤ length input.now) }
{
    let cells = capture_file::file_head(0, 0, capture_record::SNAP_LENGTH, LinkType::Short as u32);
    input.starts_with(&cells)
}

// Counts the records of a file, or gives nothing where it is none that the writer can make.
pub fn read_capture(input: &[u8]) -> Option<usize>
    ensures { ReadsCapture input.now (in_count result) }
{
    if !is_head(input) {
        return None;
    }
    count_records(&input[FILE_HEADER_LENGTH..])
}

// ---- The record at a position

// Reads the record that starts at index `at`, or nothing where none that the writer makes starts there.
pub fn read_record(input: &[u8], at: usize) -> Option<CapturedRecord>
    ensures { in_numbers result ≡ read_at input.now at }
{
    let rest = input.get(at..)?;
    if !is_record(rest) {
        return None;
    }
    let payload_length = capture_tests::delivered_at(rest) as usize;
    let payload_start = at + FRONT_LENGTH;
    Some(CapturedRecord {
        time: capture_tests::time_at(rest),
        header: capture_header::header_in(&rest[RECORD_HEADER_LENGTH..FRONT_LENGTH]),
        payload_start,
        payload_length,
        next: payload_start + payload_length,
    })
}
