// Prints the shapes of control chains up to the length that it is given on standard input (R-10).
#![tactic(auto)]

ghost use Rattle.std.specs.Prelude.{◌≡◌, ◌≤◌, length, OnOk};
ghost use Rattle.input_bytes.specs.Outputs.{WritesFor};
ghost use Rattle.buffers.specs.Patch.{patch};
ghost use Rattle.text.specs.Wrote.{HasRoom, Wrote};
ghost use Rattle.shape_lines.specs.Lines.{max_text};
ghost use Rattle.control_shapes.specs.Answers.{in_range, one_digit, two_digits, asked as asked_of, refused_text, answer_text};

use std::io;
use std::io::{Read, Write};
use text::Text;

// ---- What is read

// Room for `12`, a line feed and one byte, by which a longer input is noticed.
const INPUT: usize = 4;

// A length, if a list may be asked of it.
fn in_range(m: usize) -> Option<usize>
    ensures { result ≡ in_range m }
{
    (shape_lines::MIN_SHAPE <= m && m <= shape_lines::MAX_SHAPE).then_some(m)
}

// One character as a length.
fn one_digit(c: u8) -> Option<usize>
    ensures { result ≡ one_digit c }
{
    match c {
        b'0'..=b'9' => in_range((c - b'0') as usize),
        _ => None,
    }
}

// Two characters as a length.
fn two_digits(b: u8, c: u8) -> Option<usize>
    ensures { result ≡ two_digits b c }
{
    match (b, c) {
        (b'1'..=b'9', b'0'..=b'9') => in_range(10 * (b - b'0') as usize + (c - b'0') as usize),
        _ => None,
    }
}

// The length asked for, if a list is.
fn asked(input: &[u8]) -> Option<usize>
    ensures { result ≡ asked_of input.now }
{
    match *input {
        [b] | [b, b'\n'] => one_digit(b),
        [b, c] | [b, c, b'\n'] => two_digits(b, c),
        _ => None,
    }
}

// ---- What is printed

// Writes the line of an input that is refused: one word, as in `log_print`.
#[tactic(auto, unfolding(numerals::specs::Digits::digit_char, numerals::specs::Digits::digits, numerals::specs::Digits::trimmed, numerals::specs::Digits::decimal_of, crate::specs::Answers::refused_text))]
fn put_refused(text: &mut Text<'_>)
    requires { HasRoom max_text text.old }
    ensures { Wrote max_text text.old refused_text text.new }
{
    text.put_word(b"refused 16\n");
}

// Writes the text for an input.
fn put_answer(text: &mut Text<'_>, input: &[u8])
    requires { HasRoom max_text text.old }
    ensures { Wrote max_text text.old (answer_text input.now) text.new }
{
    match asked(input) {
        None => put_refused(text),
        Some(longest) => shape_text::shapes_up_to(text, longest),
    }
}

// Writes the text for an input from the buffer's start on, and returns where it ends.
fn put_text(text: &mut [u8], input: &[u8]) -> usize
    requires { max_text ≤ length text.old }
    ensures text { text.new ≡ patch text.old 0 (answer_text input.now) }
    ensures length { result ≡ length (answer_text input.now) }
    ensures within { result ≤ length text.new }
{
    let mut text = Text {
        bytes: text,
        end: 0,
    };
    put_answer(&mut text, input);
    text.end
}

// Reads an input and writes the text for it.
fn answer_input<R: Read, W: Write>(reader: &mut R, writer: &mut W) -> io::Result<()>
    ensures { OnOk result (WritesFor answer_text (R.remaining reader.old) (W.contents writer.old) (W.contents writer.new)) }
{
    let mut input = [0u8; INPUT];
    let read = input_bytes::read_full(reader, &mut input)?;
    let mut text = [0u8; shape_lines::MAX_TEXT];
    let end = put_text(&mut text, &input[..read]);
    writer.write_all(&text[..end])
}

fn main(rt: HostRuntime) -> io::Result<()> {
    answer_input(&mut rt.stdin(), &mut rt.stdout())
}
