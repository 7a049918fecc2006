// The answers of the program `raw_trbs`.
#![tactic(auto)]

ghost use Rattle.std.specs.Prelude.{◌≡◌};
ghost use Rattle.text.specs.Wrote.{HasRoom, Wrote};
ghost use Rattle.raw_text.specs.RawLines.{decoded_numbers, trb_line, bytes_line, encoded_line, max_raw_answer, raw_limits};

use raw_trb::DecodedTrb;
use text::Text;
use trb::{Refusal, TransferTrb};

// ---- Limits: the constant has this name here and one in specs/RawLines.antt; `raw_limits` ties the two.

// Characters of the longest answer: four numbers, each with a space or a line feed behind it.
pub const MAX_RAW_ANSWER: usize = 4 * (numerals::HEX_PLACES + 1);

#[derive(Clone, Copy)]
pub struct RawLimits {
    pub answer: usize,
}

// The constant is the number of specs/RawLines.antt.
pub fn raw_limits() -> RawLimits
    ensures { result ≡ raw_limits }
{
    RawLimits {
        answer: MAX_RAW_ANSWER,
    }
}

// ---- A decoded TRB

// `KIND FLAGS A B` of a decoded TRB: its numbers.
pub fn put_decoded(text: &mut Text<'_>, decoded: DecodedTrb)
    requires { HasRoom max_raw_answer text.old }
    ensures { Wrote max_raw_answer text.old (trb_line (decoded_numbers decoded)) text.new }
{
    let numbers = held_bytes::numbers_of(TransferTrb {
        variant: decoded.variant,
        addr: 0,
        cycle_bit: decoded.cycle_bit,
    });
    written_numbers::put_hex(text, numbers.kind as u64);
    call_text::put_hex_behind(text, numbers.flags as u64);
    call_text::put_hex_behind(text, numbers.value);
    call_text::put_hex_behind(text, numbers.transfer_length as u64);
    text.put_char(b'\n');
}

// ---- An encoded TRB

#[tactic(auto, unfolding(crate::specs::RawLines::bytes_line))]
fn put_bytes_line(text: &mut Text<'_>, bytes: [u8; 16])
    requires { HasRoom max_raw_answer text.old }
    ensures { Wrote max_raw_answer text.old (bytes_line bytes) text.new }
{
    written_numbers::put_bytes(text, &bytes);
    text.put_char(b'\n');
}

// Its 32 digits, or `no NUMBER`.
pub fn put_encoded(text: &mut Text<'_>, encoded: Result<[u8; 16], Refusal>)
    requires { HasRoom max_raw_answer text.old }
    ensures { Wrote max_raw_answer text.old (encoded_line encoded) text.new }
{
    match encoded {
        Ok(bytes) => put_bytes_line(text, bytes),
        Err(refusal) => call_text::put_refused(text, u8::from(refusal)),
    }
}
