// The work that bench/ times, and its checksum, which the same work on the Rust answers too: records, plus `FAILED` for each
// result but Ok, plus `REFUSED` for each refusal.
#![tactic(auto)]

use trb::{
    Answer, CompletionAnswer, InTrbProcessingStatus, NormalTrb, TransferTrb, TransferTrbVariant,
    TrbProcessingResult,
};

const FAILED: u64 = 1048576;

const REFUSED: u64 = 1099511627776;

// Where the first TRB lies, and how far apart they are.
pub const FIRST_TRB: u64 = 4096;

pub const TRB_BYTES: u64 = 16;

// Where the high region of guest memory starts: behind the 4 GiB hole.
pub const HIGH_BASE: u64 = 0x100000000;

// ---- The checksum

// What a call adds to the checksum by which the sides are held to each other.
pub fn sum_of(answer: Answer, records: usize) -> u64 {
    match answer {
        Ok(()) => records as u64,
        Err(_) => REFUSED,
    }
}

// The same of a completion, its result among it.
pub fn sum_of_completion(answer: CompletionAnswer, records: usize) -> u64 {
    match answer {
        Ok(TrbProcessingResult::Ok) => records as u64,
        Ok(_) => FAILED.wrapping_add(records as u64),
        Err(_) => REFUSED,
    }
}

// ---- The work

// Number `i` of a TD of Normals: interrupt-on-short on all of them, on the last interrupt-on-completion in the place of the
// chain bit.
pub fn normal_at(i: u32, data_pointer: u64, transfer_length: u32, chain: bool) -> TransferTrb {
    TransferTrb {
        variant: TransferTrbVariant::Normal(NormalTrb {
            data_pointer,
            transfer_length,
            interrupt_on_short: true,
            chain,
            interrupt_on_completion: !chain,
            immediate_data: false,
        }),
        addr: FIRST_TRB + TRB_BYTES * (i as u64),
        cycle_bit: true,
    }
}

// What the device gives, if this TRB has ended the TD: from 3 on every status is a disconnect.
pub fn result_at(ends: bool, status: u8) -> Option<InTrbProcessingStatus> {
    ends.then_some(answer_numbers::status_of(status.min(3)))
}
