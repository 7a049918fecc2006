// What the exported calls answer: the cases of an answer as plain numbers, in structs that C has too. And the status that a number stands
// for.
#![tactic(auto)]

ghost use Rattle.std.specs.Prelude.{◌≡◌};
ghost use Rattle.answer_numbers.specs.Numbers.{answered_as, counted, status_of, plain, located, completed_with, completion_answered};

use trb::{
    Answer, CompletionAnswer, CompletionCode, InTrbProcessingStatus, Refusal, TrbProcessingResult,
};

// A number with the values beside it, since C reads it. What a call answers: the number of the question that said no, or 0, and how many
// records or bytes it made.
#[repr(C)]
#[derive(Clone, Copy)]
pub struct Answered {
    pub number: u32,
    pub count: usize,
}

// What a completion answers: the number of the question that said no, or 0; the result (0 Ok, 1 Stall, 2 transaction error, 3
// disconnect, 4 TRB error) with its completion code; whether it carries an address and a cycle bit, and these; how many records were
// logged. A number with the values beside it, since C reads it.
#[repr(C)]
#[derive(Clone, Copy)]
pub struct CompletionAnswered {
    pub number: u32,
    pub result: u8,
    pub code: u8,
    pub located: u8,
    pub cycle_bit: u8,
    pub records: usize,
    pub address: u64,
}

// What C and Rust get of a submission: the number of its answer, and its records.
pub fn answered_as(answer: Answer, records: usize) -> Answered
    ensures { result ≡ answered_as answer records }
{
    Answered {
        number: trb::number_of(answer) as u32,
        count: records,
    }
}

// What C and Rust get of a call that counts what it made: a refused one made nothing.
pub fn counted(answer: Result<usize, Refusal>) -> Answered
    ensures { result ≡ counted answer }
{
    let number = trb::number_of(answer) as u32;
    Answered {
        number,
        count: answer.unwrap_or(0),
    }
}

// 1 Stall, 3 Disconnect, 0 Success; 2 and any other number TransactionError: by a match that cannot fail, where `TryFrom` would.
pub fn status_of(number: u8) -> InTrbProcessingStatus
    ensures { result ≡ status_of number }
{
    match number {
        0 => InTrbProcessingStatus::Success,
        1 => InTrbProcessingStatus::Stall,
        3 => InTrbProcessingStatus::Disconnect,
        _ => InTrbProcessingStatus::TransactionError,
    }
}

// A result that carries nothing.
fn plain(res: u8, code: u8, records: usize) -> CompletionAnswered
    ensures { result ≡ plain res code records }
{
    CompletionAnswered {
        number: 0,
        result: res,
        code,
        located: 0,
        cycle_bit: 0,
        records,
        address: 0,
    }
}

// A result that carries an address and a cycle bit.
fn located(res: u8, code: u8, address: u64, cycle_bit: bool, records: usize) -> CompletionAnswered
    ensures { result ≡ located res code address cycle_bit records }
{
    CompletionAnswered {
        located: 1,
        cycle_bit: u8::from(cycle_bit),
        address,
        ..plain(res, code, records)
    }
}

fn completed_with(res: TrbProcessingResult, records: usize) -> CompletionAnswered
    ensures { result ≡ completed_with res records }
{
    let stall = u8::from(CompletionCode::StallError);
    let failed = u8::from(CompletionCode::UsbTransactionError);
    let bad_trb = u8::from(CompletionCode::TrbError);
    match res {
        TrbProcessingResult::Ok => plain(0, 0, records),
        TrbProcessingResult::Stall => plain(1, stall, records),
        TrbProcessingResult::StallAt(address, cycle_bit) => located(
            1, stall, address, cycle_bit, records,
        ),
        TrbProcessingResult::TransactionError => plain(2, failed, records),
        TrbProcessingResult::TransactionErrorAt(address, cycle_bit) => located(
            2, failed, address, cycle_bit, records,
        ),
        TrbProcessingResult::Disconnect => plain(3, failed, records),
        TrbProcessingResult::TrbError => plain(4, bad_trb, records),
    }
}

// What C and Rust get of a completion: the number of its answer, its result with address and cycle bit, and its records.
pub fn completed_as(answer: CompletionAnswer, records: usize) -> CompletionAnswered
    ensures { result ≡ completion_answered answer records }
{
    match answer {
        Ok(result) => completed_with(result, records),
        Err(refusal) => CompletionAnswered {
            number: u8::from(refusal) as u32,
            ..plain(0, 0, records)
        },
    }
}
