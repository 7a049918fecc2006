// Decodes and encodes the TRBs on standard input: a line each, `d RAW` or `e KIND FLAGS A B`.
#![tactic(auto)]

ghost use Rattle.std.specs.Prelude.{◌≡◌, ◌≤◌, length};
ghost use Rattle.raw_text.specs.RawLines.{max_raw_answer};

use call_script::RawLine;
use script_lines::{Found, Input};
use std::io;
use std::io::{Read, Write};
use text::Text;

// Takes one line, which comes without its line feed. Was it good?
fn run_line<W: Write>(writer: &mut W, text: &mut Text<'_>, line: &[u8]) -> io::Result<bool>
    requires { max_raw_answer ≤ length text.old.bytes.now }
    ensures same { text.new.bytes.ghost_name ≡ text.old.bytes.ghost_name }
    ensures size { length text.new.bytes.now ≡ length text.old.bytes.now }
{
    let Some(asked) = call_script::read_raw_line(line) else {
        return Ok(false);
    };
    script_lines::make_room(writer, text, raw_text::MAX_RAW_ANSWER)?;
    match asked {
        RawLine::Decode(decoded) => raw_text::put_decoded(text, decoded),
        RawLine::Encode(t) => {
            let encoded = raw_trb_encoder::encode(t.variant, t.cycle_bit);
            raw_text::put_encoded(text, encoded);
        }
    }
    Ok(true)
}

// Takes the input to its end, or to a bad line, whose number it then gives.
fn run_input<R: Read, W: Write>(
    reader: &mut R,
    writer: &mut W,
    text: &mut Text<'_>,
    input: &mut Input<'_>,
) -> io::Result<Option<u64>>
    requires { max_raw_answer ≤ length text.old.bytes.now }
    ensures text { text.new.bytes.ghost_name ≡ text.old.bytes.ghost_name }
    ensures input { input.new.bytes.ghost_name ≡ input.old.bytes.ghost_name }
{
    let mut lines = 0;
    // A proved loop has to end, and nothing says that the input does: so its turns are counted, up to a number that no run uses up.
    for _ in 0..u64::MAX {
        match script_lines::next_line(reader, input)? {
            Found::Line(from, end) => {
                lines = script_lines::lines_behind(lines, 1);
                if !run_line(writer, text, &input.bytes[from..end])? {
                    return Ok(Some(lines));
                }
            }
            Found::Piece => (),
            Found::End => return Ok(None),
            Found::Unfinished => return Ok(Some(script_lines::lines_behind(lines, 1))),
        }
    }
    Ok(None)
}

// Bytes of the text that is not yet written out.
const TEXT: usize = 65536;

fn main(rt: HostRuntime) -> io::Result<()> {
    let mut reader = rt.stdin();
    let mut writer = rt.stdout();
    let mut bytes = [0u8; script_lines::PIECE];
    let mut input = Input::new(&mut bytes);
    let mut text_bytes = [0u8; TEXT];
    let mut text = Text {
        bytes: &mut text_bytes,
        end: 0,
    };
    let bad_line = run_input(&mut reader, &mut writer, &mut text, &mut input)?;
    script_lines::finish(&mut writer, &text, bad_line)
}
