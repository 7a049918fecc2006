// Capture files converted between link types 189 and 220.
#![tactic(auto)]

ghost use Rattle.std.specs.Prelude.{true, ◌≡◌, ◌+◌, ◌-◌, ◌*◌, ◌^◌, ◌≤◌, ◌<◌, length};
ghost use Rattle.buffers.specs.LittleEndian.{le_field};
ghost use Rattle.buffers.specs.Patch.{patch};
ghost use Rattle.capture_file.specs.Records.{head, layout};
ghost use Rattle.capture_file.specs.Reading.{original_at, delivered_at, record_at};
ghost use Rattle.capture_file.specs.Files.{link_number, extra_of, HeadOf, whole_file};
ghost use Rattle.text.specs.Wrote.{HasRoom, Wrote};
ghost use Rattle.capture_convert.specs.Converting.{resized, resized_front, resized_bytes, Resizable, ResizableRecord, other_link, converted_bytes, added_length, Measures, Converts};

use capture_file::{
    ADDED_LENGTH, FILE_HEADER_LENGTH, FRONT_LENGTH, LinkType, RECORD_HEADER_LENGTH,
    USB_HEADER_LENGTH,
};
use text::Text;
use trb::Refusal;

// How many added bytes a record has, and how many are to stand in their place, all zero.
#[derive(Clone, Copy)]
struct Added {
    from: usize,
    to: usize,
}

// The first 16 bytes of the record that `rest` starts with, resized.
// `ResizableRecord` is a fact of the bytes that are left and of what their header is to have, and of no one of these.
fn resized_head(rest: &[u8], added: Added) -> [u8; RECORD_HEADER_LENGTH]
    requires { ResizableRecord added.from added.to rest.now }
    ensures { result ≡ head (le_field 0 4 rest.now) (le_field 4 4 rest.now) (48 + added.to + delivered_at rest.now) (original_at rest.now + added.to - added.from) }
{
    let original = capture_tests::original_at(rest) as usize;
    let delivered = capture_tests::delivered_at(rest) as usize;
    capture_file::record_head(
        capture_tests::time_at(rest),
        (USB_HEADER_LENGTH + added.to + delivered) as u32,
        (original + added.to - added.from) as u32,
    )
}

// Writes the headers of that record.
fn write_front(rest: &[u8], added: Added, out: &mut Text<'_>)
    requires { ResizableRecord added.from added.to rest.now × HasRoom (64 + added.to) out.old }
    ensures { Wrote (64 + added.to) out.old (resized_front added.from added.to rest.now) out.new }
{
    let zeros = [0u8; ADDED_LENGTH];
    out.put_word(&resized_head(rest, added));
    out.put_word(&rest[RECORD_HEADER_LENGTH..FRONT_LENGTH]);
    out.put_word(&zeros[..added.to]);
}

// Writes that record.
fn write_record(rest: &[u8], added: Added, out: &mut Text<'_>)
    requires { ResizableRecord added.from added.to rest.now × HasRoom (64 + added.to + delivered_at rest.now) out.old }
    ensures { Wrote (64 + added.to + delivered_at rest.now) out.old (layout (resized added.to (record_at added.from rest.now))) out.new }
{
    let start = FRONT_LENGTH + added.from;
    let end = start + capture_tests::delivered_at(rest) as usize;
    write_front(rest, added, out);
    out.put_word(&rest[start..end]);
}

// Writes the records, one behind the other.
fn write_records(records: &[u8], added: Added, out: &mut Text<'_>)
    requires { Resizable added.from added.to records.now × HasRoom (length (resized_bytes added.from added.to records.now)) out.old }
    ensures { Wrote (length (resized_bytes added.from added.to records.now)) out.old (resized_bytes added.from added.to records.now) out.new }
{
    // No iterator: a record says its own length, and for this loop alone a type with an invariant and laws is no plainer.
    let mut rest = records;
    while !rest.is_empty() {
        write_record(rest, added, out);
        rest = capture_tests::split_record(rest).1;
    }
}

#[tactic(auto, unfolding(crate::specs::Converting::other_link))]
fn other_link(link: LinkType) -> LinkType
    ensures { link_number result ≡ other_link (link_number link) }
{
    match link {
        LinkType::Short => LinkType::Long,
        LinkType::Long => LinkType::Short,
    }
}

// Writes the converted file.
fn write_file(src: &[u8], link: LinkType, dst: &mut [u8])
    requires { (whole_file added_length src.now ≡ true) × (link_number link ≡ le_field 20 4 src.now) × (length (converted_bytes src.now) ≤ length dst.old) }
    ensures { dst.new ≡ patch dst.old 0 (converted_bytes src.now) }
{
    let other = other_link(link);
    let mut out = Text { bytes: dst, end: 0 };
    out.put_word(&capture_file::file_head(
        buffers::le32(src, 8),
        buffers::le32(src, 12),
        buffers::le32(src, 16),
        u32::from(other),
    ));
    write_records(
        &src[FILE_HEADER_LENGTH..],
        Added {
            from: link.extra(),
            to: other.extra(),
        },
        &mut out,
    );
}

// The length of a whole file, of so many records and this link type, once it is converted.
#[tactic(auto, unfolding(capture_file::specs::Files::extra_of, crate::specs::Converting::other_link))]
fn resized_length(length: usize, records: usize, link: LinkType) -> usize
    requires { (length < 2 ^ 63) × (64 * records ≤ length) }
    ensures { result + extra_of (link_number link) * records ≡ length + extra_of (other_link (link_number link)) * records }
{
    let added = ADDED_LENGTH * records;
    match link {
        LinkType::Short => length + added,
        LinkType::Long => length - added,
    }
}

// The length that a file of this link type has once it is converted, or why it cannot be: 17, 18. One pass over its records.
fn length_of(src: &[u8], link: LinkType) -> Result<usize, Refusal>
    requires { HeadOf link src.now }
    ensures { Measures src.now result }
{
    let survey = capture_survey::survey_file(src, ADDED_LENGTH as u32).ok_or(Refusal::NotACapture)?;
    trb::ask(survey.convertible, Refusal::NotConvertible)?;
    Ok(resized_length(src.len(), survey.records, link))
}

// The length that a capture has once it is converted, or why it cannot be: 17, 18.
#[tactic(auto, using(capture_file::proofs::FileLaws::headless), unfolding(trb::specs::Answers::refusal_of, trb::specs::Questions::first_no))]
pub fn converted_length(src: &[u8]) -> Result<usize, Refusal>
    ensures { Measures src.now result }
{
    let link = capture_tests::link_in(src).ok_or(Refusal::NotACapture)?;
    length_of(src, link)
}

// Converts a capture from link type 189 to 220 or back: 17, 18, then 14 where the output buffer is too short. It is as it was on
// all three.
pub fn convert(src: &[u8], dst: &mut [u8]) -> Result<usize, Refusal>
    ensures { Converts src.now dst.old result dst.new }
{
    let link = capture_tests::link_in(src).ok_or(Refusal::NotACapture)?;
    let length = length_of(src, link)?;
    trb::ask(length <= dst.len(), Refusal::OutputTooShort)?;
    write_file(src, link, dst);
    Ok(length)
}
