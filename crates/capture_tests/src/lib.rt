// What is read of a capture file: its link type; of a record its time and its lengths; is a record whole, and may it be converted?
#![tactic(auto)]

ghost use Rattle.std.specs.Prelude.{◌≡◌, ◌+◌, ◌≤◌, eqb, length, take, drop};
ghost use Rattle.std.specs.Bool.{OnTrue};
ghost use Rattle.capture_file.specs.Reading.{captured_at, original_at, delivered_at, record_at, whole_record, every};
ghost use Rattle.capture_file.specs.Files.{ReadsLink};
ghost use Rattle.capture_file.specs.Times.{time_at};
ghost use Rattle.capture_file.specs.Survey.{convertible};

use capture_file::{CaptureTime, LinkType};

// Of the record that the bytes start with: the captured length.
#[tactic(auto, unfolding(capture_file::specs::Reading::captured_at))]
pub fn captured_at(rest: &[u8]) -> u32
    requires { 12 ≤ length rest.now }
    ensures { result ≡ captured_at rest.now }
{
    buffers::le32(rest, 8)
}

// The original length.
#[tactic(auto, unfolding(capture_file::specs::Reading::original_at))]
pub fn original_at(rest: &[u8]) -> u32
    requires { 16 ≤ length rest.now }
    ensures { result ≡ original_at rest.now }
{
    buffers::le32(rest, 12)
}

// The number of bytes delivered.
#[tactic(auto, unfolding(capture_file::specs::Reading::delivered_at))]
pub fn delivered_at(rest: &[u8]) -> u32
    requires { 56 ≤ length rest.now }
    ensures { result ≡ delivered_at rest.now }
{
    buffers::le32(rest, 52)
}

// Do the bytes start with a whole record? `extra` is the number of bytes that its usbmon header has beyond 48.
// That `extra` is at most 16 is `LinkType`'s promise; the number is taken, as the definitions say what a record is of any such number.
#[tactic(auto, unfolding(capture_file::specs::Reading::whole_record))]
pub fn whole_record(rest: &[u8], extra: usize, most: u32) -> bool
    requires { extra ≤ 16 }
    ensures answer { result ≡ whole_record extra most rest.now }
    ensures within { OnTrue result ((64 + extra ≤ length rest.now) × (16 + captured_at rest.now ≤ length rest.now)) }
{
    // Before the three numbers, which stand in bytes that there may not be.
    if rest.len() < capture_file::FRONT_LENGTH + extra {
        return false;
    }
    let captured = captured_at(rest);
    let original = original_at(rest);
    let delivered = delivered_at(rest);
    captured as usize == capture_file::USB_HEADER_LENGTH + extra + delivered as usize
        && capture_file::RECORD_HEADER_LENGTH + captured as usize <= rest.len()
        && captured <= original
        && original <= most
}

// The record that the bytes start with, and what is left behind it: a record says its own length.
pub fn split_record(rest: &[u8]) -> (&[u8], &[u8])
    requires { (12 ≤ length rest.now) × (16 + captured_at rest.now ≤ length rest.now) }
    ensures record { result.0.now ≡ take (16 + captured_at rest.now) rest.now }
    ensures left { result.1.now ≡ drop (16 + captured_at rest.now) rest.now }
{
    rest.split_at(capture_file::RECORD_HEADER_LENGTH + captured_at(rest) as usize)
}

// Are the bytes all zero?
fn all_zero(bytes: &[u8]) -> bool
    ensures { result ≡ every (eqb 0) bytes.now }
{
    bytes.iter().all(|byte| *byte == 0)
}

// Is the record that the bytes start with neither isochronous nor one with an added field that is not zero?
pub fn is_convertible(rest: &[u8], extra: usize) -> bool
    requires { (64 + extra ≤ length rest.now) × (extra ≤ 16) }
    ensures { result ≡ convertible (record_at extra rest.now) }
{
    let transfer_type = rest[25];
    transfer_type != 0
        && all_zero(&rest[capture_file::FRONT_LENGTH..capture_file::FRONT_LENGTH + extra])
}

// The time of the record that the bytes start with.
pub fn time_at(rest: &[u8]) -> CaptureTime
    requires { 8 ≤ length rest.now }
    ensures { result ≡ time_at rest.now }
{
    CaptureTime {
        seconds: buffers::le32(rest, 0),
        microseconds: buffers::le32(rest, 4),
    }
}

// The link type of the file header that the bytes start with, if its magic, version and link type are known.
#[tactic(auto, unfolding(capture_file::specs::Files::whole_head, capture_file::specs::Files::known_link, capture_file::specs::Files::link_of))]
pub fn link_in(src: &[u8]) -> Option<LinkType>
    ensures { ReadsLink src.now result }
{
    let known = capture_file::FILE_HEADER_LENGTH <= src.len()
        && buffers::le32(src, 0) == capture_file::MAGIC
        && buffers::le16(src, 4) == capture_file::MAJOR_VERSION
        && buffers::le16(src, 6) == capture_file::MINOR_VERSION;
    if known {
        LinkType::of(buffers::le32(src, 20))
    } else {
        None
    }
}
