// The text of a log, printed into a lent buffer.
#![tactic(auto)]

ghost use Rattle.std.specs.Prelude.{◌≡◌};
ghost use Rattle.text.specs.Wrote.{HasRoom, Wrote};
ghost use Rattle.log_text.specs.Widths.{max_text};
ghost use Rattle.log_print.specs.LogText.{refused_text, printable, log_text, Prints};

use text::Text;
use trb::Refusal;

// Writes what a log that is refused prints. One word here and in `control_shapes`: a function for both would print the number by its
// digits.
#[tactic(auto, unfolding(numerals::specs::Digits::digit_char, numerals::specs::Digits::digits, numerals::specs::Digits::trimmed, numerals::specs::Digits::decimal_of, crate::specs::LogText::refused_text))]
fn put_refused(text: &mut Text<'_>)
    requires { HasRoom max_text text.old }
    ensures { Wrote max_text text.old refused_text text.new }
{
    text.put_word(b"refused 10\n");
}

// Is the log one that is printed?
#[tactic(auto, unfolding(crate::specs::LogText::printable))]
fn printable(log: &[u8]) -> bool
    ensures { result ≡ printable log.now }
{
    log.len() <= trb::MAX_PRINTED_LOG && log_check::well_formed(log)
}

// Writes the text of a log.
fn put_log(text: &mut Text<'_>, log: &[u8])
    requires { HasRoom max_text text.old }
    ensures { Wrote max_text text.old (log_text log.now) text.new }
{
    if printable(log) {
        log_text::put_lines(text, log);
    } else {
        put_refused(text);
    }
}

// Prints a log into a text buffer of at least MAX_TEXT bytes, and returns how long its text is.
#[tactic(auto, unfolding(crate::specs::LogText::printed, crate::specs::LogText::text_after, trb::specs::Questions::first_no, trb::specs::Answers::refusal_of))]
pub fn print_log(log: &[u8], text: &mut [u8]) -> Result<usize, Refusal>
    ensures { Prints log.now text.old result text.new }
{
    trb::ask(log_text::MAX_TEXT <= text.len(), Refusal::BufferTooShort)?;
    let mut text = Text {
        bytes: text,
        end: 0,
    };
    put_log(&mut text, log);
    Ok(text.end)
}
