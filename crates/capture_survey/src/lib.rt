// A capture file checked in one pass: what is found of its records.
#![tactic(auto)]

ghost use Rattle.std.specs.Prelude.{◌≡◌, ◌≤◌};
ghost use Rattle.capture_file.specs.Survey.{survey_of, file_survey};

use capture_file::{CaptureTime, Survey};

// One pass over the records behind a file header.
fn survey_records(records: &[u8], extra: usize, most: u32) -> Option<Survey>
    requires { extra ≤ 16 }
    ensures { result ≡ survey_of extra most records.now }
{
    // No iterator: only a record that is found whole says where the next one starts, and one that is not ends the walk.
    let mut rest = records;
    let mut count = 0;
    let mut convertible = true;
    let mut ordered = true;
    let mut last = CaptureTime {
        seconds: 0,
        microseconds: 0,
    };
    while !rest.is_empty() {
        if !capture_tests::whole_record(rest, extra, most) {
            return None;
        }
        convertible &= capture_tests::is_convertible(rest, extra);
        let time = capture_tests::time_at(rest);
        ordered &= last <= time;
        last = time;
        count += 1;
        rest = capture_tests::split_record(rest).1;
    }
    Some(Survey {
        convertible,
        ordered,
        records: count,
    })
}

// One pass over a file, or nothing where it is not whole. `growth` is the number of bytes by which records of link type 189 are to grow: 16
// for converting, 0 for merging.
pub fn survey_file(src: &[u8], growth: u32) -> Option<Survey>
    ensures { result ≡ file_survey growth src.now }
{
    let link = capture_tests::link_in(src)?;
    survey_records(
        &src[capture_file::FILE_HEADER_LENGTH..],
        link.extra(),
        link.most(growth),
    )
}
