// The IN endpoint in place: its block is a lent row of bytes, of which a call reads and stores what it needs; ports
// `TdBasedInEndpointHandle`. A HAL in C or Rust calls these, through the exported functions of `polvihe`: numbers and lent bytes alone.
#![tactic(auto)]

ghost use Rattle.std.specs.Prelude.{◌≡◌, true, ◌≤◌, length};
ghost use Rattle.trb.specs.Answers.{number_of};
ghost use Rattle.in_bytes.specs.Layout.{block_length, mode_of};
ghost use Rattle.in_place_questions.specs.Lent.{lent_log};
ghost use Rattle.in_place.specs.InPlace.{CreatesInPlace, CancelsInPlace, CompletesInPlace, GoesOn, result_of};

use answer_numbers::CompletionAnswered;
use in_block::Ending;
use trb::{Answer, EndpointId, InTrbProcessingStatus, Refusal, SlotId, TrbProcessingResult};

// ---- Completion

// Completes what was submitted last; of a row of bytes that is long enough for a block.
pub fn complete(
    log: &mut [u8],
    block: &mut [u8],
    res: Option<InTrbProcessingStatus>,
    data_length: usize,
) -> CompletionAnswered
    requires { block_length ≤ length block.old }
    ensures { CompletesInPlace (length log.old) res data_length log.old block.old result log.new block.new }
{
    let asked = in_place_questions::ask_completion(log.len(), block, res, data_length);
    if let Err(refusal) = asked {
        return answer_numbers::completed_as(Err(refusal), 0);
    }
    let state = in_place_questions::state_of(block);
    match in_block::ending_of(state, res, data_length as u32) {
        Ending::KeepCollecting => {
            in_place_store::keep(block);
            answer_numbers::completed_as(Ok(TrbProcessingResult::Ok), 0)
        }
        Ending::Transfer(status, device_length) => {
            let td = in_place_walk::td_of(block, status, device_length);
            let places = in_bytes::held_places(block);
            let processed = in_place_walk::walk(log, places, td);
            in_place_store::free(block);
            answer_numbers::completed_as(Ok(processed.result), processed.progress.records)
        }
        Ending::ReportUnsupported(addr) => {
            let endpoint_id = in_bytes::endpoint_id(block);
            let slot_id = in_bytes::slot_id(block);
            in_endpoint::report_unsupported(log, addr, endpoint_id, slot_id);
            in_place_store::free(block);
            answer_numbers::completed_as(Ok(TrbProcessingResult::TrbError), 1)
        }
    }
}

// The device result by its number, as `next_completion` takes it: 0 to 3 as `status_of` has them; any other number, no device result.
pub fn result_of(status: u8) -> Option<InTrbProcessingStatus>
    ensures { result ≡ result_of status }
{
    (status <= 3).then_some(answer_numbers::status_of(status))
}

// Is a TD collected, no device result given, and does every question say yes? So it is behind every TRB of a TD but the last. The tests
// stand one behind the other: as one condition two of them are compiled into one, of two instructions more for each TRB.
fn goes_on(log_length: usize, block: &[u8], status: u8, data_length: usize) -> bool
    requires { block_length ≤ length block.now }
    ensures { result ≡ true → GoesOn log_length (result_of status) data_length block.now }
{
    if status < 4 {
        return false;
    }
    if !in_place_questions::is_sound_in(in_bytes::COLLECTING, block) {
        return false;
    }
    if log_length < trb::MIN_LOG {
        return false;
    }
    data_length <= trb::MAX_DATA
}

// Completes what was submitted last; ports `next_completion`. Of the device's data only the length is asked for. Status: 0 Success, 1 Stall,
// 2 a transaction error, 3 a disconnect; any other number, no device result is given.
pub fn next_completion(
    log: &mut [u8],
    block: &mut [u8],
    status: u8,
    data_length: usize,
) -> CompletionAnswered
    ensures { CompletesInPlace (lent_log log.old block.old) (result_of status) data_length log.old block.old result log.new block.new }
{
    // By hand, since what C reads is no Result that `?` could give back.
    if block.len() < in_bytes::BLOCK {
        return answer_numbers::completed_as(Err(Refusal::BufferTooShort), 0);
    }
    if goes_on(log.len(), block, status, data_length) {
        in_place_store::keep(block);
        return answer_numbers::completed_as(Ok(TrbProcessingResult::Ok), 0);
    }
    complete(log, block, result_of(status), data_length)
}

// ---- Creation and cancel

// The bytes become a fresh block for this endpoint of this slot; mode 0 as ported, any other strict. Where an id is refused, both are 0;
// where the bytes are too few for a block, they stay.
// As `control_in_place::create`: what the two share is one question; what is made is of two layouts, by two definitions.
#[tactic(auto, unfolding(trb::specs::Questions::first_no, in_endpoint::specs::Creation::creation))]
pub fn create(block: &mut [u8], endpoint_id: u8, slot_id: u8, mode: u8) -> Answer
    ensures { CreatesInPlace (record { 0 = endpoint_id }) (record { 0 = slot_id }) (mode_of mode) block.old (number_of result) block.new }
{
    trb::ask(in_bytes::BLOCK <= block.len(), Refusal::BufferTooShort)?;
    if trb::ids_in_range(EndpointId(endpoint_id), SlotId(slot_id)) {
        in_place_store::make(block, endpoint_id, slot_id, mode);
        return Ok(());
    }
    in_place_store::make(block, 0, 0, mode);
    Err(Refusal::IdOutOfRange)
}

// Nothing is held any more, whatever the block held, and a submission is due; ports `cancel`. Bytes that are too few for a block stay.
#[tactic(auto, unfolding(trb::specs::Questions::first_no))]
pub fn cancel(block: &mut [u8]) -> Answer
    ensures { CancelsInPlace block.old (number_of result) block.new }
{
    trb::ask(in_bytes::BLOCK <= block.len(), Refusal::BufferTooShort)?;
    in_place_store::free(block);
    Ok(())
}
