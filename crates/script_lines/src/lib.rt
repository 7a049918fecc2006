// The lines of an input, each ended by a line feed, and the text that answers them.
#![tactic(auto)]

ghost use Rattle.std.specs.Prelude.{◌≡◌, ◌+◌, ◌-◌, ◌≤◌, ◌<◌, not, eqb, [], ◌++◌, length, take, IfOk, OnOk, OnErr};
ghost use Rattle.std.specs.List.{take_while};
ghost use Rattle.std.specs.Io.KnownBytes.{Appends, Consumes, IsAtEnd};
ghost use Rattle.script_lines.specs.Lines.{max_line, line_feed, LineEnd, MakesRoom, KeepsText, bad_line_text, counted};
ghost use Rattle.script_lines.specs.Steps.{left, MovedToFront, ReadBehind, bytes_behind, at_end, Refills, refill_bytes, found_bytes, NextLine};

mod input;

pub use input::Input;
use std::io;
use std::io::{Read, Write};
use text::Text;

// Characters of the longest line that can be good: `u`, an address and a raw TRB, and the spaces between them.
pub const MAX_LINE: usize = 3 + numerals::HEX_PLACES + call_number::RAW_PLACES;

// ---- Lines in, by a buffer that is filled piece by piece

// Bytes of the input that one read may give.
pub const PIECE: usize = 65536;

// What was found: a line, which stands from an index up to another one; a piece of input; its end; or a line that is too long or that no
// line feed ends. Four cases and no Option: each is taken for itself.
#[derive(Clone, Copy)]
pub enum Found {
    Line(usize, usize),
    Piece,
    End,
    Unfinished,
}

// What was read behind an unfinished line: a piece; or nothing, since the input has ended there, or ended in the line, or the line is too
// long. Three cases and no Option: each is taken for itself.
#[derive(Clone, Copy)]
pub enum Refilled {
    Piece,
    End,
    Unfinished,
}

impl From<Refilled> for Found {
    ghost use Rattle.std.specs.Prelude.{◌≡◌};
    ghost use Rattle.script_lines.specs.Steps.{found_of};

    ghost from_gives = { λ refilled found. found ≡ found_of refilled };

    fn from(refilled: Refilled) -> Found {
        match refilled {
            Refilled::Piece => Found::Piece,
            Refilled::End => Found::End,
            Refilled::Unfinished => Found::Unfinished,
        }
    }
}

// How many bytes stand before the first line feed.
fn line_length(input: &[u8]) -> usize
    ensures { result ≡ length (take_while (λ c. not (eqb c line_feed)) input.now) }
{
    input.iter().take_while(|byte| **byte != b'\n').count()
}

// The index of the first line feed from `from` on, or the input's length.
pub fn line_end(input: &[u8], from: usize) -> usize
    requires { from ≤ length input.now }
    ensures { LineEnd input.now from result }
{
    from + line_length(&input[from..])
}

// Moves the bytes that are not taken yet to the front.
fn move_to_front(input: &mut Input<'_>)
    ensures { MovedToFront input.old input.new }
{
    input.bytes.copy_within(input.from..input.filled, 0);
    input.filled -= input.from;
    input.from = 0;
}

// Reads a piece behind the bytes that are read.
#[tactic(auto, using(crate::proofs::LineLaws::read_part))]
fn read_behind<R: Read>(reader: &mut R, input: &mut Input<'_>) -> io::Result<()>
    ensures same { input.new.bytes.ghost_name ≡ input.old.bytes.ghost_name }
    ensures size { length input.new.bytes.now ≡ length input.old.bytes.now }
    ensures behind { IfOk result (λ _. ReadBehind input.old input.new) }
    ensures bytes { IfOk result (λ _. Consumes (R.remaining reader.old) (R.remaining reader.new) (bytes_behind input.old.filled input.new)) }
    ensures end { IfOk result (λ _. input.new.filled ≡ input.old.filled → input.old.filled < length input.old.bytes.now → IsAtEnd (R.remaining reader.new)) }
{
    input.filled += reader.read(&mut input.bytes[input.filled..])?;
    Ok(())
}

// The input has ended, with so many bytes of a line that no line feed ends.
fn at_end(held: usize) -> Refilled
    ensures { result ≡ at_end held }
{
    if 0 < held {
        Refilled::Unfinished
    } else {
        Refilled::End
    }
}

// Reads a piece of input behind the bytes of an unfinished line, which then stand at the front.
#[tactic(auto, using(crate::proofs::LineLaws::piece_read))]
pub fn refill<R: Read>(reader: &mut R, input: &mut Input<'_>) -> io::Result<Refilled>
    ensures same { input.new.bytes.ghost_name ≡ input.old.bytes.ghost_name }
    ensures size { length input.new.bytes.now ≡ length input.old.bytes.now }
    ensures refills { IfOk result (λ r. Refills r input.old input.new) }
    ensures bytes { IfOk result (λ r. Consumes (R.remaining reader.old) (R.remaining reader.new) (refill_bytes r (left input.old) input.new)) }
    ensures end { IfOk result (λ r. refill_bytes r (left input.old) input.new ≡ [] → left input.old ≤ max_line → left input.old < length input.old.bytes.now → IsAtEnd (R.remaining reader.new)) }
{
    move_to_front(input);
    let held = input.filled;
    if MAX_LINE < held {
        return Ok(Refilled::Unfinished);
    }
    read_behind(reader, input)?;
    if held < input.filled {
        return Ok(Refilled::Piece);
    }
    Ok(at_end(held))
}

// The next line of the input, or a further piece of it. A line is taken: what is left stands behind it.
pub fn next_line<R: Read>(reader: &mut R, input: &mut Input<'_>) -> io::Result<Found>
    ensures same { input.new.bytes.ghost_name ≡ input.old.bytes.ghost_name }
    ensures size { length input.new.bytes.now ≡ length input.old.bytes.now }
    ensures next { IfOk result (λ f. NextLine input.old f input.new) }
    ensures bytes { IfOk result (λ f. Consumes (R.remaining reader.old) (R.remaining reader.new) (found_bytes f (left input.old) input.new)) }
{
    let from = input.from;
    let end = line_end(input.filled_bytes(), from);
    if end < input.filled {
        input.from = end + 1;
        return Ok(Found::Line(from, end));
    }
    Ok(Found::from(refill(reader, input)?))
}

// ---- Text out

// How many lines there are behind so many more. A number that 64 bits do not hold stays at their largest one.
pub fn lines_behind(n: u64, more: usize) -> u64
    ensures { result ≡ counted (n + more) }
{
    n.saturating_add(more as u64)
}

// Writes the text out where there may be no room behind it for an answer of so many characters; the next answer starts anew then.
pub fn make_room<W: Write>(writer: &mut W, text: &mut Text<'_>, most: usize) -> io::Result<()>
    requires { most ≤ length text.old.bytes.now }
    ensures same { text.new.bytes.ghost_name ≡ text.old.bytes.ghost_name }
    ensures bytes { text.new.bytes.now ≡ text.old.bytes.now }
    ensures kept { OnErr result (text.new.end ≡ text.old.end) }
    ensures room { IfOk result (λ _. MakesRoom most text.old text.new) }
    ensures text { IfOk result (λ _. KeepsText text.old text.new (W.contents writer.old) (W.contents writer.new)) }
{
    if text.end <= text.bytes.len() - most {
        return Ok(());
    }
    write_text(writer, text)?;
    text.end = 0;
    Ok(())
}

// Writes out the number of the bad line at which a run ended, if it did.
pub fn print_bad_line<W: Write>(writer: &mut W, bad_line: Option<u64>) -> io::Result<()>
    ensures { OnOk result (Appends (W.contents writer.old) (W.contents writer.new) (bad_line_text bad_line)) }
{
    if let Some(number) = bad_line {
        writeln!(writer, "bad line {number}")?;
    }
    Ok(())
}

// Writes the text out: its first `end` characters, or as many as there are.
// A writer and its text go side by side, and are no `BufWriter`: that one's buffer is on the heap, and a text is filled by proved writers.
pub fn write_text<W: Write>(writer: &mut W, text: &Text<'_>) -> io::Result<()>
    ensures { OnOk result (Appends (W.contents writer.old) (W.contents writer.new) (take text.now.end text.now.bytes.now)) }
{
    writer.write_all(&text.bytes[..text.end.min(text.bytes.len())])
}

// Writes out what is left of the text and, where the run ended at a bad line, its number.
pub fn finish<W: Write>(writer: &mut W, text: &Text<'_>, bad_line: Option<u64>) -> io::Result<()>
    ensures { OnOk result (Appends (W.contents writer.old) (W.contents writer.new) (take text.now.end text.now.bytes.now ++ bad_line_text bad_line)) }
{
    write_text(writer, text)?;
    print_bad_line(writer, bad_line)
}
