// The control endpoint in place: its block is a lent row of bytes, of which a call reads and stores what it needs; ports
// `ControlEndpointHandle`. A HAL in C or Rust calls these, through the exported functions of `polvihe`: numbers and lent bytes alone.
#![tactic(auto)]

ghost use Rattle.std.specs.Prelude.{◌≡◌, [], ◌∷◌, ◌≤◌, length};
ghost use Rattle.trb.specs.Answers.{number_of};
ghost use Rattle.trb.specs.Questions.{first_no};
ghost use Rattle.guest_memory.specs.Lent.{seen};
ghost use Rattle.held_bytes.specs.Numbers.{trb_numbers, trb_of};
ghost use Rattle.answer_numbers.specs.Numbers.{counted};
ghost use Rattle.control_block.specs.Facts.{facts_of};
ghost use Rattle.control_questions.specs.Completion.{completion_questions};
ghost use Rattle.control_block.specs.Numbers.{release_of};
ghost use Rattle.control_bytes.specs.Layout.{block_length, block_of};
ghost use Rattle.control_in_place.specs.InPlace.{Asked, Acceptable, Accepts, CompletesAsByValue, lent_log, block_question, raw_trb, SubmitsInPlace, CompletesInPlace, result_of, CreatesInPlace};

use answer_numbers::{Answered, CompletionAnswered};
use control_numbers::NumberedTrb;
use guest_memory::{GuestView, Regions};
use held_bytes::TrbNumbers;
use phase_table::Outcome;
use trb::{
    Answer, CompletionAnswer, ControlRequestProcessingResult, EndpointId, Logged, Refusal, SlotId,
    TransferTrb,
};

// ---- Submission

// Questions 1, 13, 2 to 4, 21 and 5 to 7, of the block that the bytes are and a TRB: what becomes of a TRB that none of them refuses.
fn ask_submission(
    log_length: usize,
    collect_length: usize,
    block: &[u8],
    t: NumberedTrb,
    regions: Regions,
) -> Result<Outcome, Refusal>
    requires { block_length ≤ length block.now }
    ensures { Asked log_length collect_length block.now (trb_of t.numbers) regions result }
{
    let facts = control_bytes::facts(block);
    let outcome = control_numbers::outcome_of(facts.phase, t.numbers);
    control_questions::ask_submission(
        log_length,
        collect_length,
        facts,
        outcome,
        t.moved,
        regions,
    )?;
    Ok(outcome)
}

// What a TRB that no question refuses logs, collects and stores; returns how many records were logged.
fn accept_trb(
    log: &mut [u8],
    collect: &mut [u8],
    block: &mut [u8],
    outcome: Outcome,
    t: NumberedTrb,
    memory: &GuestView<'_>,
) -> usize
    requires { Acceptable log.old collect.old block.old (trb_of t.numbers) (seen memory.now) outcome }
    ensures { Accepts log.old collect.old block.old (trb_of t.numbers) (seen memory.now) outcome result log.new collect.new block.new }
{
    let transfer = control_bytes::transfer(block);
    let records = control_places::log_submission(log, block, outcome);
    control_transfer::collect_data(
        collect,
        outcome,
        transfer.direction,
        transfer.collected,
        t.moved,
        memory,
    );
    control_stores::take_trb(block, outcome, t);
    records
}

// Asks, and takes the TRB; returns how many records were logged.
fn submit(
    log: &mut [u8],
    collect: &mut [u8],
    block: &mut [u8],
    numbers: TrbNumbers,
    memory: &GuestView<'_>,
) -> Result<usize, Refusal>
    ensures { SubmitsInPlace (lent_log log.old block.old) (trb_of numbers) (seen memory.now) log.old collect.old block.old (counted result) log.new collect.new block.new }
{
    trb::ask(control_bytes::BLOCK <= block.len(), Refusal::BufferTooShort)?;
    let t = NumberedTrb {
        numbers,
        moved: control_numbers::data_of(numbers),
    };
    let regions = memory.regions();
    let outcome = ask_submission(log.len(), collect.len(), block, t, regions)?;
    Ok(accept_trb(log, collect, block, outcome, t, memory))
}

// Of a TRB that is given by these numbers: both submissions call it, it is not inlined, and a struct of them would go through memory.
fn submit_numbers(
    log: &mut [u8],
    collect: &mut [u8],
    block: &mut [u8],
    kind: u8,
    flags: u8,
    addr: u64,
    value: u64,
    transfer_length: u32,
    memory: &GuestView<'_>,
) -> Answered
    ensures { SubmitsInPlace (lent_log log.old block.old) (trb_of (trb_numbers kind flags addr value transfer_length)) (seen memory.now) log.old collect.old block.old result log.new collect.new block.new }
{
    let numbers = TrbNumbers {
        kind,
        flags,
        addr,
        value,
        transfer_length,
    };
    answer_numbers::counted(submit(log, collect, block, numbers, memory))
}

// Takes a TRB, given by numbers; ports `submit_trb`.
pub fn submit_trb(
    log: &mut [u8],
    collect: &mut [u8],
    block: &mut [u8],
    numbers: TrbNumbers,
    memory: &GuestView<'_>,
) -> Answered
    ensures { SubmitsInPlace (lent_log log.old block.old) (trb_of numbers) (seen memory.now) log.old collect.old block.old result log.new collect.new block.new }
{
    submit_numbers(
        log,
        collect,
        block,
        numbers.kind,
        numbers.flags,
        numbers.addr,
        numbers.value,
        numbers.transfer_length,
        memory,
    )
}

// Takes a TRB, given by its 16 bytes in the ring.
pub fn submit_raw(
    log: &mut [u8],
    collect: &mut [u8],
    block: &mut [u8],
    raw: [u8; 16],
    addr: u64,
    memory: &GuestView<'_>,
) -> Answered
    ensures { SubmitsInPlace (lent_log log.old block.old) (raw_trb raw addr) (seen memory.now) log.old collect.old block.old result log.new collect.new block.new }
{
    let decoded = raw_trb_decoder::decode(raw);
    let numbers = held_bytes::numbers_of(TransferTrb {
        variant: decoded.variant,
        addr,
        cycle_bit: decoded.cycle_bit,
    });
    submit_numbers(
        log,
        collect,
        block,
        numbers.kind,
        numbers.flags,
        numbers.addr,
        numbers.value,
        numbers.transfer_length,
        memory,
    )
}

// ---- Completion

// Questions 1, 2, 3, 8 and 9, of the block that the bytes are.
fn ask_completion(
    log_length: usize,
    block: &[u8],
    res: Option<ControlRequestProcessingResult>,
    data_length: usize,
) -> Answer
    requires { block_length ≤ length block.now }
    ensures { number_of result ≡ first_no (completion_questions log_length (facts_of (block_of block.now)) res data_length) }
{
    let facts = control_bytes::facts(block);
    control_questions::ask_completion(log_length, facts, res, data_length)
}

// Asks, and completes what was submitted last, in bytes that are enough for a block.
fn complete(
    log: &mut [u8],
    block: &mut [u8],
    res: Option<ControlRequestProcessingResult>,
    data_length: usize,
) -> Logged<CompletionAnswer>
    requires { block_length ≤ length block.old }
    ensures { CompletesAsByValue block.old res data_length log.old result log.new block.new }
{
    let asked = ask_completion(log.len(), block, res, data_length);
    match asked {
        Err(refusal) => Logged {
            answer: Err(refusal),
            records: 0,
        },
        Ok(()) => {
            let state = control_bytes::state(block);
            let ending = control_block::ending_of(state, res, data_length as u32);
            let records = control_places::log_completion(log, block, ending);
            control_stores::end_transfer(block, ending);
            let ended = control_block::result_of(ending);
            Logged {
                answer: Ok(ended),
                records,
            }
        }
    }
}

// The device result by its number, as `next_completion` takes it. No `TryFrom`: any other number is no error, but that no result is given.
fn result_of(status: u8) -> Option<ControlRequestProcessingResult>
    ensures { result ≡ result_of status }
{
    match status {
        0 => Some(ControlRequestProcessingResult::SuccessfulControlIn),
        1 => Some(ControlRequestProcessingResult::Stall),
        2 => Some(ControlRequestProcessingResult::TransactionError),
        3 => Some(ControlRequestProcessingResult::Disconnect),
        4 => Some(ControlRequestProcessingResult::SuccessfulControlOut),
        _ => None,
    }
}

// Completes what was submitted last; ports `next_completion`. Of the device's data only the length is asked for. Status: 0
// SuccessfulControlIn, 1 Stall, 2 a transaction error, 3 a disconnect, 4 SuccessfulControlOut; any other number, no device result is given.
pub fn next_completion(
    log: &mut [u8],
    block: &mut [u8],
    status: u8,
    data_length: usize,
) -> CompletionAnswered
    ensures { CompletesInPlace (lent_log log.old block.old) (result_of status) data_length log.old block.old result log.new block.new }
{
    // By hand: a completion's answer has its records beside it, so that no one Result could be given back by `?`.
    if block.len() < control_bytes::BLOCK {
        return answer_numbers::completed_as(Err(Refusal::BufferTooShort), 0);
    }
    let completed = complete(log, block, result_of(status), data_length);
    answer_numbers::completed_as(completed.answer, completed.records)
}

// ---- Creation and cancel

// The bytes become a fresh block for this endpoint of this slot, for guests of this release: 5, or any other number for 4. Where an id is
// refused, both are 0; where the bytes are too few for a block, they stay.
// As `in_place::create`: what the two share is one question; what is made is of two layouts, by two definitions.
pub fn create(block: &mut [u8], endpoint_id: u8, slot_id: u8, release: u8) -> Answer
    ensures { CreatesInPlace (record { 0 = endpoint_id }) (record { 0 = slot_id }) (release_of release) block.old (number_of result) block.new }
{
    trb::ask(control_bytes::BLOCK <= block.len(), Refusal::BufferTooShort)?;
    if trb::ids_in_range(EndpointId(endpoint_id), SlotId(slot_id)) {
        control_bytes::make(block, endpoint_id, slot_id, release);
        return Ok(());
    }
    control_bytes::make(block, 0, 0, release);
    Err(Refusal::IdOutOfRange)
}

// Changes nothing; ports `cancel`, by which the Rust cancels at the device alone.
#[tactic(auto, unfolding(trb::specs::Questions::first_no))]
pub fn cancel(block: &[u8]) -> Answer
    ensures { number_of result ≡ first_no (block_question block.now ∷ []) }
{
    trb::ask(control_bytes::BLOCK <= block.len(), Refusal::BufferTooShort)
}
