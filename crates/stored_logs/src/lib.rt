// Stored logs of any length, checked, compacted and printed.
#![tactic(auto)]

ghost use Rattle.std.specs.Prelude.{◌≡◌, cond, Ok, Err};
ghost use Rattle.trb.specs.declared.Refusal.TheVariants.{MalformedLog};
ghost use Rattle.log_check.specs.WellFormed.{well_formed};
ghost use Rattle.log_text.specs.Widths.{max_line};
ghost use Rattle.answer_numbers.specs.Numbers.{counted};
ghost use Rattle.stored_logs.specs.Stored.{Compacts, Prints};

use answer_numbers::Answered;
use text::Text;
use trb::{Answer, Refusal};

// Question 10: is the log a multiple of 32 bytes with every kind 1, 2 or 3?
pub fn check(log: &[u8]) -> Answer
    ensures { result ≡ cond (well_formed log.now) (Ok tt) (Err MalformedLog) }
{
    trb::ask(log_check::well_formed(log), Refusal::MalformedLog)
}

// Compacts a log in its own buffer, and counts the records kept.
pub fn compact(log: &mut [u8]) -> Answered
    ensures { Compacts log.old result log.new }
{
    answer_numbers::counted(log_compact::compact(log))
}

// Characters that the line of a record takes at most.
pub fn line_room() -> usize
    ensures { result ≡ max_line }
{
    log_text::MAX_LINE
}

// Writes a line for each record of a log, and returns how many characters, where the text buffer has room for the lines of all and the
// log is well formed.
fn put_lines(log: &[u8], text: &mut [u8]) -> Result<usize, Refusal>
    ensures { Prints log.now text.old (counted result) text.new }
{
    trb::ask(
        log.len() / trb::RECORD_LENGTH <= text.len() / log_text::MAX_LINE,
        Refusal::BufferTooShort,
    )?;
    check(log)?;
    let mut text = Text {
        bytes: text,
        end: 0,
    };
    log_text::put_lines(&mut text, log);
    Ok(text.end)
}

// Writes a line for each record of a log, or of whole records of one, to the text buffer's start, and counts the characters.
pub fn print(log: &[u8], text: &mut [u8]) -> Answered
    ensures { Prints log.now text.old result text.new }
{
    answer_numbers::counted(put_lines(log, text))
}
