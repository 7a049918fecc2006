// The places of a control endpoint's block in bytes, one TRB after the other: what a submission and a completion log of those held, and
// where the event of a failed transfer goes.
#![tactic(auto)]

ghost use Rattle.std.specs.Prelude.{◌≡◌, ◌≤◌, length, take};
ghost use Rattle.trb.specs.Limits.{max_held, min_log};
ghost use Rattle.call_log.specs.Calls.{Meets, counted};
ghost use Rattle.td_part.specs.Parts.{at_start};
ghost use Rattle.walks.specs.Walk.{walk};
ghost use Rattle.control_block.specs.Blocks.{held_of};
ghost use Rattle.control_block.specs.Stages.{stage_address, error_address};
ghost use Rattle.control_chain.specs.Chain.{never};
ghost use Rattle.control_chain.specs.Endings.{next_trb};
ghost use Rattle.control_endpoint.specs.Submission.{records_of};
ghost use Rattle.control_bytes.specs.Layout.{block_length, block_of};
ghost use Rattle.control_places.specs.Events.{is_silent, is_collecting, EventAt, completion_records};

use control_block::{Ending, GuestRelease, StageFound};
use phase_table::Outcome;
use td_part::{TdInfo, TdProgress};

// Each of the first `count` TRBs held has its turn, as a completion that ends so gives it. By value `control_turn::end_held`; here a TRB
// has its turn by the numbers in its place: decoded first it goes through memory, which on IN cost 86 of 494 instructions, 14 of 34 ns.
// That the log is long enough is what question 1 asked of the caller's slice: behind it only a type made for this call could say so.
fn end_held(log: &mut [u8], block: &[u8], count: usize, ending: Ending, info: TdInfo) -> TdProgress
    requires { (block_length ≤ length block.now) × ((min_log ≤ length log.old) × ((count ≤ (block_of block.now).held) × ((block_of block.now).held ≤ max_held))) }
    ensures { Meets (walk (next_trb ending info) never at_start (take count (block_of block.now).trbs)) 0 log.old result log.new }
{
    let mut progress = td_part::at_start_of_td();
    for place in control_bytes::held_places(block, count) {
        let numbers = control_bytes::numbers_in(place);
        progress = control_turn_numbers::next_trb(log, ending, info, progress, numbers);
    }
    progress
}

// ---- Submission

// Is there nothing to log of a TRB of this outcome?
fn is_silent(outcome: Outcome) -> bool
    ensures { result ≡ is_silent outcome }
{
    !phase_table::is_restart(outcome) && !phase_table::is_request(outcome)
}

// Logs what a TRB of this outcome logs (TRBs that are dropped are reported as before a bad TRB), and returns how many records there are.
fn log_outcome(log: &mut [u8], block: &[u8], outcome: Outcome) -> usize
    requires { (block_length ≤ length block.now) × ((min_log ≤ length log.old) × ((block_of block.now).held ≤ max_held)) }
    ensures { Meets (counted 0 (records_of outcome (block_of block.now))) 0 log.old result log.new }
{
    let endpoint_id = control_bytes::endpoint_id(block);
    let slot_id = control_bytes::slot_id(block);
    let held = control_bytes::held(block);
    let transfer = control_bytes::transfer(block);
    let info = TdInfo {
        endpoint_id,
        slot_id,
        data_length: 0,
    };
    let dropped = control_endpoint::places_dropped(phase_table::is_restart(outcome), held);
    let progress = end_held(log, block, dropped, Ending::ReportBadTrb(0), info);
    control_transfer::log_request(
        log,
        progress.records,
        outcome,
        transfer.request,
        endpoint_id,
        slot_id,
    )
}

// The same; of most TRBs there is nothing to log.
pub fn log_submission(log: &mut [u8], block: &[u8], outcome: Outcome) -> usize
    requires { (block_length ≤ length block.now) × ((min_log ≤ length log.old) × ((block_of block.now).held ≤ max_held)) }
    ensures { Meets (counted 0 (records_of outcome (block_of block.now))) 0 log.old result log.new }
{
    if is_silent(outcome) {
        return 0;
    }
    log_outcome(log, block, outcome)
}

// ---- Completion

// The stage found among the TRBs held: the first Data Stage TRB, failing that the first Status Stage TRB, failing that the Setup TRB.
// By value `control_block::stage_address`, which takes a slice of TRBs: here are bytes, of which one TRB at a time is made.
fn stage_address(block: &[u8], setup_address: u64) -> u64
    requires { block_length ≤ length block.now }
    ensures { result ≡ stage_address (held_of (block_of block.now)) setup_address }
{
    let count = held::places_held(control_bytes::held(block));
    let none = StageFound::Neither(setup_address);
    let found = control_bytes::held_places(block, count)
        .iter()
        .fold(none, |so_far, place| {
            control_block::stage_with(so_far, control_bytes::trb_in(place))
        });
    control_block::found_address(found)
}

// Where the event of a failed transfer goes.
// By value `control_block::error_address`; here the places are walked where the rule asks for the stage, and else not.
#[tactic(auto, unfolding(control_block::specs::Stages::error_address))]
fn error_address(block: &[u8]) -> u64
    requires { block_length ≤ length block.now }
    ensures { result ≡ error_address (block_of block.now) }
{
    let transfer = control_bytes::transfer(block);
    let setup = transfer.request.address;
    match control_bytes::release(block) {
        GuestRelease::Release4 => setup,
        GuestRelease::Release5 => stage_address(block, setup),
    }
}

// Where it goes, if this is the ending of one.
fn event_address(block: &[u8], ending: Ending) -> u64
    requires { block_length ≤ length block.now }
    ensures { EventAt ending (block_of block.now) result }
{
    match ending {
        Ending::Fail(_, _) => error_address(block),
        _ => 0,
    }
}

// Does the completion keep collecting?
fn is_collecting(ending: Ending) -> bool
    ensures { result ≡ is_collecting ending }
{
    matches!(ending, Ending::KeepCollecting)
}

// Logs what a completion that ends so logs, and returns how many records there are.
fn log_ended(log: &mut [u8], block: &[u8], ending: Ending) -> usize
    requires { (block_length ≤ length block.now) × ((min_log ≤ length log.old) × ((block_of block.now).held ≤ max_held)) }
    ensures { Meets (counted 0 (completion_records ending (block_of block.now))) 0 log.old result log.new }
{
    let endpoint_id = control_bytes::endpoint_id(block);
    let slot_id = control_bytes::slot_id(block);
    let held = control_bytes::held(block);
    let info = control_ending::info_of(ending, endpoint_id, slot_id);
    let freed = control_block::places_freed(ending, held);
    let progress = end_held(log, block, freed, ending, info);
    let address = event_address(block, ending);
    control_ending::log_ending(log, progress.records, ending, address, endpoint_id, slot_id)
}

// The same; a completion that keeps collecting logs nothing.
pub fn log_completion(log: &mut [u8], block: &[u8], ending: Ending) -> usize
    requires { (block_length ≤ length block.now) × ((min_log ≤ length log.old) × ((block_of block.now).held ≤ max_held)) }
    ensures { Meets (counted 0 (completion_records ending (block_of block.now))) 0 log.old result log.new }
{
    if is_collecting(ending) {
        return 0;
    }
    log_ended(log, block, ending)
}
