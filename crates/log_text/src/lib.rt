// The lines of a log, one for each record.
#![tactic(auto)]

ghost use Rattle.std.specs.Prelude.{◌≡◌, ◌+◌, ◌/◌, length};
ghost use Rattle.trb.specs.Limits.{record_length};
ghost use Rattle.numerals.specs.Digits.{decimal_of, hex_of};
ghost use Rattle.numerals.specs.Widths.{decimal_places, hex_places};
ghost use Rattle.text.specs.Wrote.{HasRoom, Wrote};
ghost use Rattle.log_text.specs.Widths.{max_kinds, max_ids, max_numbers, max_fields, max_line, lines_room, text_limits};
ghost use Rattle.log_text.specs.Lines.{field, kind_fields, id_fields, number_fields, fields_of, line_of, lines_in};

use call_log::Record;
use text::Text;

// ---- Limits: each has this name here and one in specs/Widths.antt; `text_limits` ties the two.

// Characters of a line: seven numbers in decimal, one in hex, eight bytes in hex, eight spaces and a line feed.
pub const MAX_LINE: usize = 7 * numerals::DECIMAL_PLACES + numerals::HEX_PLACES + 2 * 8 + 8 + 1;

// Characters of the text of the longest log that is printed.
pub const MAX_TEXT: usize = trb::MAX_PRINTED_LOG / trb::RECORD_LENGTH * MAX_LINE;

#[derive(Clone, Copy)]
pub struct TextLimits {
    pub line: usize,
    pub text: usize,
}

// The constants are the numbers of specs/Widths.antt.
pub fn text_limits() -> TextLimits
    ensures { result ≡ text_limits }
{
    TextLimits {
        line: MAX_LINE,
        text: MAX_TEXT,
    }
}

// ---- Lines

// Writes a number in decimal and a space behind it. As in hex but for the digits: a closure for these makes it no plainer.
fn put_decimal_field(text: &mut Text<'_>, n: u32)
    requires { HasRoom (decimal_places + 1) text.old }
    ensures { Wrote (decimal_places + 1) text.old (field (decimal_of n)) text.new }
{
    written_numbers::put_decimal(text, n);
    text.put_char(b' ');
}

// Writes a number in hex and a space behind it.
fn put_hex_field(text: &mut Text<'_>, n: u64)
    requires { HasRoom (hex_places + 1) text.old }
    ensures { Wrote (hex_places + 1) text.old (field (hex_of n)) text.new }
{
    written_numbers::put_hex(text, n);
    text.put_char(b' ');
}

// Writes kind, code and flag.
fn put_kinds(text: &mut Text<'_>, record: Record)
    requires { HasRoom max_kinds text.old }
    ensures { Wrote max_kinds text.old (kind_fields «record») text.new }
{
    put_decimal_field(text, record.kind as u32);
    put_decimal_field(text, record.code as u32);
    put_decimal_field(text, record.flag as u32);
}

// Writes endpoint and slot.
fn put_ids(text: &mut Text<'_>, record: Record)
    requires { HasRoom max_ids text.old }
    ensures { Wrote max_ids text.old (id_fields «record») text.new }
{
    put_decimal_field(text, record.endpoint_id.0 as u32);
    put_decimal_field(text, record.slot_id.0 as u32);
}

// Writes address, length and start.
fn put_numbers(text: &mut Text<'_>, record: Record)
    requires { HasRoom max_numbers text.old }
    ensures { Wrote max_numbers text.old (number_fields «record») text.new }
{
    put_hex_field(text, record.address);
    put_decimal_field(text, record.length);
    put_decimal_field(text, record.start);
}

// Writes the fields of a record but its last bytes.
fn put_fields(text: &mut Text<'_>, record: Record)
    requires { HasRoom max_fields text.old }
    ensures { Wrote max_fields text.old (fields_of «record») text.new }
{
    put_kinds(text, record);
    put_ids(text, record);
    put_numbers(text, record);
}

// Writes the line of a record, by its bytes.
pub fn put_line(text: &mut Text<'_>, cells: &[u8; trb::RECORD_LENGTH])
    requires { HasRoom max_line text.old }
    ensures { Wrote max_line text.old (line_of cells.now) text.new }
{
    put_fields(text, call_log::decoded(cells));
    written_numbers::put_bytes(text, &cells[24..32]);
    text.put_char(b'\n');
}

// Writes a line for each record of a log.
pub fn put_lines(text: &mut Text<'_>, log: &[u8])
    requires { HasRoom (lines_room (length log.now)) text.old }
    ensures { Wrote (lines_room (length log.now)) text.old (lines_in (length log.now / record_length) log.now) text.new }
{
    for cells in call_log::records(log) {
        put_line(text, cells);
    }
}
