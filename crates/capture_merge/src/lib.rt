// Two capture files made one, ordered by the records' times.
#![tactic(auto)]

ghost use Rattle.std.specs.Prelude.{◌≡◌, true, ◌+◌, ◌-◌, ◌≤◌, ◌<◌, length, take, drop};
ghost use Rattle.buffers.specs.LittleEndian.{le_field};
ghost use Rattle.buffers.specs.Patch.{patch};
ghost use Rattle.capture_file.specs.Reading.{captured_at, Records};
ghost use Rattle.capture_file.specs.Files.{link_number, HeadOf, whole_file};
ghost use Rattle.text.specs.Wrote.{HasRoom, Wrote};
ghost use Rattle.capture_merge.specs.Merging.{second_next, merged_bytes, no_growth, merged_file_bytes, Measures, Merges};

use capture_file::{FILE_HEADER_LENGTH, LinkType};
use text::Text;
use trb::Refusal;

// No length grows by merging, so the file check asks nothing of it.
const NO_GROWTH: u32 = 0;

// Of the records that are left of two captures, does the second's first come next?
#[tactic(auto, unfolding(crate::specs::Merging::second_next, capture_file::specs::Times::before))]
fn second_next(l: &[u8], m: &[u8]) -> bool
    requires { (0 < length l.now → 8 ≤ length l.now) × (0 < length m.now → 8 ≤ length m.now) }
    ensures { result ≡ second_next l.now m.now }
{
    !m.is_empty() && (l.is_empty() || capture_tests::time_at(m) < capture_tests::time_at(l))
}

// Copies the record that `rest` starts with, and gives what is left behind it.
fn copy_record<'a>(rest: &'a [u8], out: &mut Text<'_>) -> &'a [u8]
    requires { (12 ≤ length rest.now) × (16 + captured_at rest.now ≤ length rest.now) × HasRoom (16 + captured_at rest.now) out.old }
    ensures left { result.now ≡ drop (16 + captured_at rest.now) rest.now }
    ensures wrote { Wrote (16 + captured_at rest.now) out.old (take (16 + captured_at rest.now) rest.now) out.new }
{
    let (record, others) = capture_tests::split_record(rest);
    out.put_word(record);
    others
}

// Writes the records of both captures, in the order of time.
fn merge_records(a: &[u8], b: &[u8], extra: usize, out: &mut Text<'_>)
    requires { Records extra a.now × Records extra b.now × HasRoom (length a.now + length b.now) out.old }
    ensures { Wrote (length a.now + length b.now) out.old (merged_bytes extra a.now b.now) out.new }
{
    let mut firsts = a;
    let mut seconds = b;
    // What is left of each capture goes on by turns.
    while 0 < firsts.len() + seconds.len() {
        if second_next(firsts, seconds) {
            seconds = copy_record(seconds, out);
        } else {
            firsts = copy_record(firsts, out);
        }
    }
}

// Writes both files, of this link type, as one.
fn write_merged(a: &[u8], b: &[u8], link: LinkType, dst: &mut [u8])
    requires whole { (whole_file no_growth a.now ≡ true) × (whole_file no_growth b.now ≡ true) }
    requires linked { (link_number link ≡ le_field 20 4 a.now) × (le_field 20 4 a.now ≡ le_field 20 4 b.now) }
    requires room { length a.now + (length b.now - 24) ≤ length dst.old }
    ensures { dst.new ≡ patch dst.old 0 (merged_file_bytes a.now b.now) }
{
    let snap = buffers::le32(a, 16).max(buffers::le32(b, 16));
    let mut out = Text { bytes: dst, end: 0 };
    out.put_word(&capture_file::file_head(
        buffers::le32(a, 8),
        buffers::le32(a, 12),
        snap,
        u32::from(link),
    ));
    merge_records(
        &a[FILE_HEADER_LENGTH..],
        &b[FILE_HEADER_LENGTH..],
        link.extra(),
        &mut out,
    );
}

// The length of two captures made one, the first of this link type, or why they cannot be: 17, 19, 20. One pass over each.
fn length_of(a: &[u8], b: &[u8], link: LinkType) -> Result<usize, Refusal>
    requires { HeadOf link a.now }
    ensures { Measures a.now b.now result }
{
    let first = capture_survey::survey_file(a, NO_GROWTH).ok_or(Refusal::NotACapture)?;
    let other = capture_tests::link_in(b).ok_or(Refusal::NotACapture)?;
    let second = capture_survey::survey_file(b, NO_GROWTH).ok_or(Refusal::NotACapture)?;
    trb::ask(link == other, Refusal::LinkTypesDiffer)?;
    trb::ask(first.ordered, Refusal::TimesGoBackwards)?;
    trb::ask(second.ordered, Refusal::TimesGoBackwards)?;
    Ok(a.len() + (b.len() - FILE_HEADER_LENGTH))
}

// The length of two captures made one, or why they cannot be: 17, 19, 20.
#[tactic(auto, using(capture_file::proofs::FileLaws::headless), unfolding(trb::specs::Answers::refusal_of, trb::specs::Questions::first_no))]
pub fn merged_length(a: &[u8], b: &[u8]) -> Result<usize, Refusal>
    ensures { Measures a.now b.now result }
{
    let link = capture_tests::link_in(a).ok_or(Refusal::NotACapture)?;
    length_of(a, b, link)
}

// Makes two captures one, ordered by time: 17, 19, 20, then 14 where the result does not fit the output buffer. It is as it was
// on each.
pub fn merge(a: &[u8], b: &[u8], dst: &mut [u8]) -> Result<usize, Refusal>
    ensures { Merges a.now b.now dst.old result dst.new }
{
    let link = capture_tests::link_in(a).ok_or(Refusal::NotACapture)?;
    let length = length_of(a, b, link)?;
    trb::ask(length <= dst.len(), Refusal::OutputTooShort)?;
    write_merged(a, b, link, dst);
    Ok(length)
}
