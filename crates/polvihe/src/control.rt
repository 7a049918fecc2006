// The control endpoint in place: its block is a lent row of bytes.
ghost use Rattle.std.specs.Prelude.{◌≡◌, [], ◌∷◌};
ghost use Rattle.trb.specs.Questions.{first_no};
ghost use Rattle.guest_memory.specs.Places.{memory_of};
ghost use Rattle.held_bytes.specs.Numbers.{trb_numbers, trb_of};
ghost use Rattle.control_block.specs.Numbers.{release_of};
ghost use Rattle.control_bytes.specs.Layout.{block_length};
ghost use Rattle.control_in_place.specs.InPlace.{block_question, lent_log, raw_trb, CreatesInPlace, SubmitsInPlace, CompletesInPlace, result_of};

use answer_numbers::{Answered, CompletionAnswered};
use guest_memory::GuestView;
use held_bytes::TrbNumbers;

// Bytes of a block.
#[unsafe(no_mangle)]
pub extern "C" fn polvihe_control_block_length() -> usize
    ensures { result ≡ block_length }
{
    control_bytes::BLOCK
}

// The bytes become a fresh block for this endpoint of this slot, for guests of this release: 5, or any other number for 4. Answers 0, or 12
// with both ids 0, or 1 where the bytes are too few for a block.
#[unsafe(no_mangle)]
pub extern "C" fn polvihe_control_create(
    block: &mut [u8],
    endpoint_id: u8,
    slot_id: u8,
    release: u8,
) -> u32
    ensures { CreatesInPlace (record { 0 = endpoint_id }) (record { 0 = slot_id }) (release_of release) block.old result block.new }
{
    let created = control_in_place::create(block, endpoint_id, slot_id, release);
    trb::number_of(created) as u32
}

// Takes a TRB, given by numbers: xHCI's type, the flags (by weight: 1 cycle bit, 2 chain, 4 interrupt on completion, 8 interrupt on short,
// 16 immediate data, 32 direction), its address, its data pointer, event data or setup bytes, and its length. Guest memory is `low`'s bytes
// at `low_base` and `high`'s at `high_base`.
#[unsafe(no_mangle)]
pub extern "C" fn polvihe_control_submit<'a>(
    log: &mut [u8],
    collect: &mut [u8],
    block: &mut [u8],
    kind: u8,
    flags: u8,
    addr: u64,
    value: u64,
    transfer_length: u32,
    low_base: u64,
    low: &'a [u8],
    high_base: u64,
    high: &'a [u8],
) -> Answered
    ensures { SubmitsInPlace (lent_log log.old block.old) (trb_of (trb_numbers kind flags addr value transfer_length)) (memory_of low_base low.now high_base high.now) log.old collect.old block.old result log.new collect.new block.new }
{
    let numbers = TrbNumbers {
        kind,
        flags,
        addr,
        value,
        transfer_length,
    };
    let memory = GuestView {
        low_base,
        low,
        high_base,
        high,
    };
    control_in_place::submit_trb(log, collect, block, numbers, &memory)
}

// Takes a TRB, given by its 16 bytes in the ring, and its address.
#[unsafe(no_mangle)]
pub extern "C" fn polvihe_control_submit_raw<'a>(
    log: &mut [u8],
    collect: &mut [u8],
    block: &mut [u8],
    raw: &[u8; 16],
    addr: u64,
    low_base: u64,
    low: &'a [u8],
    high_base: u64,
    high: &'a [u8],
) -> Answered
    ensures { SubmitsInPlace (lent_log log.old block.old) (raw_trb raw.now addr) (memory_of low_base low.now high_base high.now) log.old collect.old block.old result log.new collect.new block.new }
{
    let bytes = *raw;
    let memory = GuestView {
        low_base,
        low,
        high_base,
        high,
    };
    control_in_place::submit_raw(log, collect, block, bytes, addr, &memory)
}

// Completes what was submitted last. Status: 0 a successful IN transfer, 1 Stall, 2 a transaction error, 3 a disconnect, 4 a successful OUT
// transfer; any other number, no device result is given. Of the device's data only the length is asked for. The answer is handed on field
// by field, as by `polvihe_in_complete`.
#[unsafe(no_mangle)]
pub extern "C" fn polvihe_control_complete(
    log: &mut [u8],
    block: &mut [u8],
    status: u8,
    data_length: usize,
) -> CompletionAnswered
    ensures { CompletesInPlace (lent_log log.old block.old) (result_of status) data_length log.old block.old result log.new block.new }
{
    let answered = control_in_place::next_completion(log, block, status, data_length);
    CompletionAnswered {
        number: answered.number,
        result: answered.result,
        code: answered.code,
        located: answered.located,
        cycle_bit: answered.cycle_bit,
        records: answered.records,
        address: answered.address,
    }
}

// Changes nothing. Answers 0, or 1 where the bytes are too few for a block.
#[unsafe(no_mangle)]
pub extern "C" fn polvihe_control_cancel(block: &[u8]) -> u32
    ensures { result ≡ first_no (block_question block.now ∷ []) }
{
    trb::number_of(control_in_place::cancel(block)) as u32
}
