// Raw TRBs for C and Rust, decoded to plain numbers and encoded from them.
#![tactic(auto)]

ghost use Rattle.std.specs.Prelude.{◌≡◌};
ghost use Rattle.trb.specs.Answers.{number_of};
ghost use Rattle.held_bytes.specs.Numbers.{trb_of};
ghost use Rattle.raw_numbers.specs.RawNumbers.{raw_trb, room_questions, Encodes};

use held_bytes::TrbNumbers;
use trb::{Answer, Refusal, TransferTrb};

// The numbers of a TRB by its 16 bytes in the ring, and its address.
pub fn decode_trb(raw: [u8; 16], addr: u64) -> TrbNumbers
    ensures { trb_of result ≡ raw_trb raw addr }
{
    let decoded = raw_trb_decoder::decode(raw);
    held_bytes::numbers_of(TransferTrb {
        variant: decoded.variant,
        addr,
        cycle_bit: decoded.cycle_bit,
    })
}

// Bytes of a raw TRB.
const RAW: usize = 16;

// Encodes a TRB into the 16 bytes that `raw` starts with, where they are enough and the TRB passes questions 23 and 4; else `raw` stays. Of
// its address no byte is written.
pub fn encode_trb(numbers: TrbNumbers, raw: &mut [u8]) -> Answer
    ensures { Encodes (room_questions (trb_of numbers) raw.old) (trb_of numbers) raw.old (number_of result) raw.new }
{
    trb::ask(RAW <= raw.len(), Refusal::BufferTooShort)?;
    let t = held_bytes::trb_of(numbers);
    let bytes = raw_trb_encoder::encode(t.variant, t.cycle_bit)?;
    buffers::copy_into(raw, 0, &bytes);
    Ok(())
}
