// The lines that answer a call.
#![tactic(auto)]

ghost use Rattle.std.specs.Prelude.{◌≡◌, cond, ◌++◌, ◌+◌, length};
ghost use Rattle.numerals.specs.Digits.{decimal_of, hex_of};
ghost use Rattle.numerals.specs.Widths.{decimal_places};
ghost use Rattle.text.specs.Wrote.{HasRoom, Wrote};
ghost use Rattle.call_text.specs.Words.{cycle_on, cycle_off};
ghost use Rattle.call_text.specs.Widths.{max_decimal, max_hex, max_result, max_completed, max_first, max_carried_out};
ghost use Rattle.call_text.specs.Lines.{behind, refused_line, accepted_line, address_fields, result_fields, completed_fields, completed_line, row_line, carried_out_line, count_of};

use text::Text;
use trb::TrbProcessingResult;

// ---- Numbers

// Writes a word and a number in decimal.
fn put_numbered(text: &mut Text<'_>, word: &[u8], n: u32)
    requires { HasRoom (length word.now + decimal_places) text.old }
    ensures { Wrote (length word.now + decimal_places) text.old (word.now ++ decimal_of n) text.new }
{
    text.put_word(word);
    written_numbers::put_decimal(text, n);
}

// Writes a space and a number in decimal.
// This, the same in hex and of bytes (`state_text`) differ in what stands behind the space: a closure for that makes it no plainer.
pub fn put_decimal_behind(text: &mut Text<'_>, n: u32)
    requires { HasRoom max_decimal text.old }
    ensures { Wrote max_decimal text.old (behind (decimal_of n)) text.new }
{
    text.put_char(b' ');
    written_numbers::put_decimal(text, n);
}

// Writes a space and a number in hex.
pub fn put_hex_behind(text: &mut Text<'_>, n: u64)
    requires { HasRoom max_hex text.old }
    ensures { Wrote max_hex text.old (behind (hex_of n)) text.new }
{
    text.put_char(b' ');
    written_numbers::put_hex(text, n);
}

// ---- The first line of an answer

// Of a call that was refused: `no NUMBER`.
pub fn put_refused(text: &mut Text<'_>, number: u8)
    requires { HasRoom max_first text.old }
    ensures { Wrote max_first text.old (refused_line number) text.new }
{
    put_numbered(text, b"no ", number as u32);
    text.put_char(b'\n');
}

// Of creation, submission and cancel.
pub fn put_accepted(text: &mut Text<'_>, records: u32)
    requires { HasRoom max_first text.old }
    ensures { Wrote max_first text.old (accepted_line records) text.new }
{
    put_numbered(text, b"ok ", records);
    text.put_word(b" - - -\n");
}

fn put_cycle_bit(text: &mut Text<'_>, cycle_bit: bool)
    requires { HasRoom 2 text.old }
    ensures { Wrote 2 text.old (cond cycle_bit cycle_on cycle_off) text.new }
{
    if cycle_bit {
        text.put_word(b" 1");
    } else {
        text.put_word(b" 0");
    }
}

fn put_address(text: &mut Text<'_>, addr: u64, cycle_bit: bool)
    requires { HasRoom (max_hex + 2) text.old }
    ensures { Wrote (max_hex + 2) text.old (address_fields addr cycle_bit) text.new }
{
    put_hex_behind(text, addr);
    put_cycle_bit(text, cycle_bit);
}

fn put_result(text: &mut Text<'_>, res: TrbProcessingResult)
    requires { HasRoom max_result text.old }
    ensures { Wrote max_result text.old (result_fields res) text.new }
{
    match res {
        TrbProcessingResult::Ok => text.put_word(b" ok - -"),
        TrbProcessingResult::Stall => text.put_word(b" stall - -"),
        TrbProcessingResult::StallAt(addr, cycle_bit) => {
            text.put_word(b" stall");
            put_address(text, addr, cycle_bit);
        }
        TrbProcessingResult::TrbError => text.put_word(b" trb - -"),
        TrbProcessingResult::TransactionError => text.put_word(b" transaction - -"),
        TrbProcessingResult::TransactionErrorAt(addr, cycle_bit) => {
            text.put_word(b" transaction");
            put_address(text, addr, cycle_bit);
        }
        TrbProcessingResult::Disconnect => text.put_word(b" disconnect - -"),
    }
}

// Writes what the first line of a completion has, without its line feed.
fn put_completed_fields(text: &mut Text<'_>, records: u32, res: TrbProcessingResult)
    requires { HasRoom max_completed text.old }
    ensures { Wrote max_completed text.old (completed_fields records res) text.new }
{
    put_numbered(text, b"ok ", records);
    put_result(text, res);
}

// Of a completion.
pub fn put_completed(text: &mut Text<'_>, records: u32, res: TrbProcessingResult)
    requires { HasRoom max_first text.old }
    ensures { Wrote max_first text.old (completed_line records res) text.new }
{
    put_completed_fields(text, records, res);
    text.put_char(b'\n');
}

// Of a row, of which so many TDs were finished well.
pub fn put_row_completed(text: &mut Text<'_>, records: u32, res: TrbProcessingResult, finished: u32)
    requires { HasRoom max_first text.old }
    ensures { Wrote max_first text.old (row_line records res finished) text.new }
{
    put_completed_fields(text, records, res);
    put_decimal_behind(text, finished);
    text.put_char(b'\n');
}

// Carry-out's answer: 0, or the number of its refusal.
pub fn put_carried_out(text: &mut Text<'_>, number: u8)
    requires { HasRoom max_carried_out text.old }
    ensures { Wrote max_carried_out text.old (carried_out_line number) text.new }
{
    put_numbered(text, b"out ", number as u32);
    text.put_char(b'\n');
}

// ---- Counts

// A count as a number of 32 bits, which every count of a block or a call is.
pub fn count(n: usize) -> u32
    ensures { result ≡ count_of n }
{
    n.min(0xffff_ffff) as u32
}
