// A TRB submitted to the IN endpoint in place: what becomes of it, and what the block holds then.
#![tactic(auto)]

ghost use Rattle.std.specs.Prelude.{◌≡◌, true, not, [], ◌∷◌, ◌≤◌, ◌<◌, length, take};
ghost use Rattle.trb.specs.Limits.{min_log};
ghost use Rattle.call_log.specs.Calls.{Put};
ghost use Rattle.guest_memory.specs.Regions.{share_an_address};
ghost use Rattle.in_block.specs.Facts.{held_test};
ghost use Rattle.in_block.specs.Outcomes.{outcome_of};
ghost use Rattle.in_endpoint.specs.Submission.{request_of};
ghost use Rattle.held_bytes.specs.Numbers.{trb_of};
ghost use Rattle.in_bytes.specs.Layout.{block_length, endpoint_of, slot_of, held_count, places};
ghost use Rattle.in_place_questions.specs.Lent.{lent_log};
ghost use Rattle.in_place_submission.specs.Submission.{Collected, SubmitsInPlace};

use answer_numbers::Answered;
use guest_memory::Regions;
use held_bytes::TrbNumbers;
use in_block::Outcome;
use trb::Refusal;

// What becomes of a TRB behind those held. Only at the end of a TD it is asked whether that has a Normal.
fn outcome_of(block: &[u8], numbers: TrbNumbers) -> Outcome
    requires { block_length ≤ length block.now }
    ensures { result ≡ outcome_of (held_test (take (held_count block.now) (places block.now))) (trb_of numbers) }
{
    let ends = !in_numbers::chain_of(numbers);
    let has_normal = ends && in_bytes::has_normal(in_bytes::held_places(block));
    in_numbers::outcome_of(has_normal, numbers)
}

// Logs the request of the TD that is held.
// By value `in_submission::log_request`; here of the first place the address is taken, and of the others type and length.
// That the log is long enough is what question 1 asked of the caller's slice: behind it only a type made for this call could say so.
fn log_request(log: &mut [u8], block: &[u8])
    requires { (block_length ≤ length block.now) × ((min_log ≤ length log.old) × (0 < held_count block.now)) }
    ensures { Put log.old 0 (request_of (take (held_count block.now) (places block.now)) (endpoint_of block.now) (slot_of block.now) ∷ []) log.new }
{
    let first = in_bytes::trb_at(block, 0);
    let length = in_bytes::requested_length(in_bytes::held_places(block));
    let request = call_log::in_request(
        first.addr,
        length,
        in_bytes::endpoint_id(block),
        in_bytes::slot_id(block),
    );
    call_log::put_record(log, 0, request);
}

// Of a row of bytes that is long enough for a block.
fn submit(log: &mut [u8], block: &mut [u8], numbers: TrbNumbers, regions: Regions) -> Answered
    requires { block_length ≤ length block.old }
    ensures { SubmitsInPlace (length log.old) (trb_of numbers) regions log.old block.old result log.new block.new }
{
    let asked = in_place_questions::ask_submission(log.len(), block, numbers, regions);
    if let Err(refusal) = asked {
        return answer_numbers::answered_as(Err(refusal), 0);
    }
    match outcome_of(block, numbers) {
        Outcome::Drop => {
            in_place_store::drop_held(block, numbers.addr);
            answer_numbers::answered_as(Ok(()), 0)
        }
        Outcome::Collect => {
            in_place_store::store(block, numbers, in_bytes::COLLECTING);
            answer_numbers::answered_as(Ok(()), 0)
        }
        Outcome::CompleteLocally => {
            in_place_store::store(block, numbers, in_bytes::LOCAL);
            answer_numbers::answered_as(Ok(()), 0)
        }
        Outcome::Request => {
            in_place_store::store(block, numbers, in_bytes::AWAITING);
            log_request(log, block);
            answer_numbers::answered_as(Ok(()), 1)
        }
    }
}

// ---- A TRB that is collected

// Do the regions share no address? Guest memory in one region has nothing to share.
fn share_none(regions: Regions) -> bool
    ensures { result ≡ not (share_an_address regions) }
{
    regions.high.len == 0 || !guest_memory::share_an_address(regions)
}

// Is it a Normal with chain on, and does every question say yes? So it is of every TRB of a long TD but the last, in a few tests. They
// stand one behind the other: as one condition its proof would take five joins apart, one inside the other.
fn is_collected(log_length: usize, block: &[u8], numbers: TrbNumbers, regions: Regions) -> bool
    requires { block_length ≤ length block.now }
    ensures { result ≡ true → Collected log_length block.now (trb_of numbers) regions }
{
    if numbers.kind != raw_trb::NORMAL {
        return false;
    }
    if !held_bytes::bit(numbers.flags, held_bytes::CHAIN) {
        return false;
    }
    if !in_place_questions::is_sound_in(in_bytes::DUE, block) {
        return false;
    }
    if log_length < trb::MIN_LOG {
        return false;
    }
    if !share_none(regions) {
        return false;
    }
    let held = in_bytes::held(block) as usize;
    let answer = in_numbers::ask_of_normal(held, numbers, regions);
    answer.is_ok()
}

// Takes a TRB, given by numbers; ports `submit_trb`. Of guest memory no byte is asked for.
pub fn submit_trb(
    log: &mut [u8],
    block: &mut [u8],
    numbers: TrbNumbers,
    regions: Regions,
) -> Answered
    ensures { SubmitsInPlace (lent_log log.old block.old) (trb_of numbers) regions log.old block.old result log.new block.new }
{
    // By hand, since what C reads is no Result that `?` could give back.
    if block.len() < in_bytes::BLOCK {
        return answer_numbers::answered_as(Err(Refusal::BufferTooShort), 0);
    }
    if is_collected(log.len(), block, numbers, regions) {
        in_place_store::store(block, numbers, in_bytes::COLLECTING);
        return answer_numbers::answered_as(Ok(()), 0);
    }
    submit(log, block, numbers, regions)
}
