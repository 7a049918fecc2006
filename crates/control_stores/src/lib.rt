// What an accepted call stores in a control endpoint's block in bytes: the TRB that is held, and the head.
#![tactic(auto)]

ghost use Rattle.std.specs.Prelude.{◌≡◌, true, ◌-◌, ◌<◌, ◌≤◌, ◌^◌, length};
ghost use Rattle.trb.specs.Limits.{max_held, max_collected};
ghost use Rattle.held_bytes.specs.Numbers.{trb_of};
ghost use Rattle.phase_table.specs.Outcomes.{holds, restarts, state_after};
ghost use Rattle.control_transfer.specs.Transfers.{transfer_after};
ghost use Rattle.control_bytes.specs.Layout.{head_length, block_length, block_of};
ghost use Rattle.control_bytes.specs.Stores.{Headed};
ghost use Rattle.control_endpoint.specs.Submission.{places_dropped, block_after};
ghost use Rattle.control_endpoint.specs.Completion.{block_behind};
ghost use Rattle.control_stores.specs.Becomes.{Holdable, Held, Becomes};

use control_block::{ControlTransfer, Ending};
use control_numbers::NumberedTrb;
use held_bytes::TrbNumbers;
use phase_table::Outcome;
use trb::ControlSubmissionState;

// The TRB is held behind the `kept` that stay, if its outcome holds it; returns how many are held then.
fn hold_trb(block: &mut [u8], outcome: Outcome, numbers: TrbNumbers, kept: usize) -> usize
    requires { (block_length ≤ length block.old) × (holds outcome ≡ true → Holdable kept (trb_of numbers)) }
    ensures { Held block.old outcome (trb_of numbers) kept result block.new }
{
    if phase_table::is_held(outcome) {
        control_bytes::put_trb(block, kept, numbers);
        kept + 1
    } else {
        kept
    }
}

// The head after a TRB of this outcome; `transfer` is what the block knows of its transfer.
fn advance(
    block: &mut [u8],
    outcome: Outcome,
    transfer: ControlTransfer,
    t: NumberedTrb,
    held: usize,
)
    requires head_length_in_bounds { (head_length ≤ length block.old) × (held < 2 ^ 32) }
    requires transfer_value { (transfer ≡ (block_of block.old).transfer) × (transfer.collected ≤ max_collected) }
    ensures { Headed block.old (transfer_after outcome (trb_of t.numbers).variant t.numbers.addr transfer) (state_after outcome t.numbers.addr) held block.new }
{
    let numbers = t.numbers;
    let before = transfer.phase;
    let phase = phase_table::phase_after(before, outcome);
    let state = phase_table::state_after(outcome, numbers.addr);
    if control_numbers::begins(outcome, numbers.kind) {
        let begun = control_numbers::begun(phase, numbers);
        control_bytes::put_head(block, begun, state, held);
        return;
    }
    let size = control_numbers::size_taken(outcome, t.moved);
    let grown = control_transfer::grow(transfer, size);
    control_bytes::put_turn(block, phase, state, transfer.direction);
    control_bytes::put_counts(block, grown.collected, grown.request.length, held);
}

// What a TRB of this outcome makes of the block.
pub fn take_trb(block: &mut [u8], outcome: Outcome, t: NumberedTrb)
    requires block_length_in_bounds { (block_length ≤ length block.old) × (((block_of block.old).held ≤ max_held) × ((block_of block.old).transfer.collected ≤ max_collected)) }
    requires holdable { holds outcome ≡ true → Holdable ((block_of block.old).held - places_dropped (restarts outcome) (block_of block.old).held) (trb_of t.numbers) }
    ensures { Becomes block.old (block_after outcome (block_of block.old) (trb_of t.numbers)) block.new }
{
    let transfer = control_bytes::transfer(block);
    let held = control_bytes::held(block);
    let dropped = control_endpoint::places_dropped(phase_table::is_restart(outcome), held);
    let next = hold_trb(block, outcome, t.numbers, held - dropped);
    advance(block, outcome, transfer, t, next);
}

// What a completion that ends so makes of the block.
pub fn end_transfer(block: &mut [u8], ending: Ending)
    requires { block_length ≤ length block.old }
    ensures { Becomes block.old (block_behind ending (block_of block.old)) block.new }
{
    let transfer = control_bytes::transfer(block);
    let before = transfer.phase;
    let state = control_bytes::state(block);
    let held = control_bytes::held(block);
    let freed = control_block::places_freed(ending, held);
    let phase = control_block::phase_behind(state, before);
    control_bytes::put_turn(
        block,
        phase,
        ControlSubmissionState::NoTrbSubmitted,
        transfer.direction,
    );
    control_bytes::put_counts(
        block,
        transfer.collected,
        transfer.request.length,
        held - freed,
    );
}
