// Each change of an IN block that lies in a lent row of bytes: a TRB more is held, the TRBs held are dropped or freed, the turn goes back,
// a fresh block is made.
#![tactic(auto)]

ghost use Rattle.std.specs.Prelude.{◌≡◌, true, ◌≤◌, ◌<◌, length};
ghost use Rattle.trb.specs.Limits.{max_held, max_transfer_length};
ghost use Rattle.trb.specs.Trbs.{transfer_length};
ghost use Rattle.trb.specs.declared.TdBasedNormalSubmissionState.TheVariants.{SubmissionDue, UnsupportedTrb};
ghost use Rattle.held.specs.Sound.{supported};
ghost use Rattle.held.specs.declared.EndpointKind.TheVariants.{In};
ghost use Rattle.buffers.specs.LittleEndian.{le_field};
ghost use Rattle.in_block.specs.Blocks.{fresh_block, with_state, stored, emptied};
ghost use Rattle.held_bytes.specs.Numbers.{trb_of};
ghost use Rattle.in_bytes.specs.Layout.{block_length, held_count, mode_of, state_of, block_of};
ghost use Rattle.in_place_store.specs.Becomes.{Becomes};

use held_bytes::TrbNumbers;

// The TRB is held too, and the block in this state.
pub fn store(block: &mut [u8], numbers: TrbNumbers, state: u8)
    requires block_length_in_bounds { (block_length ≤ length block.old) × (held_count block.old < max_held) }
    requires numbers_bound { (transfer_length (trb_of numbers).variant ≤ max_transfer_length) × (supported In (trb_of numbers).variant ≡ true) }
    ensures { Becomes block.old (with_state (stored (block_of block.old) (trb_of numbers)) (state_of state (le_field 8 8 block.old))) block.new }
{
    let held = in_bytes::held(block);
    in_bytes::put_trb(block, held as usize, numbers);
    in_bytes::put_head(block, state, held + 1);
}

// Nothing is held any more: the TRB at `addr` was of an unsupported kind.
pub fn drop_held(block: &mut [u8], addr: u64)
    requires { block_length ≤ length block.old }
    ensures { Becomes block.old (emptied (block_of block.old) (UnsupportedTrb addr)) block.new }
{
    let held = in_bytes::held(block);
    in_bytes::put_address(block, addr);
    in_bytes::blank_places(block, held::places_held(held as usize));
    in_bytes::put_head(block, in_bytes::UNSUPPORTED, 0);
}

// Nothing is held any more, and a submission is due.
pub fn free(block: &mut [u8])
    requires { block_length ≤ length block.old }
    ensures { Becomes block.old (emptied (block_of block.old) SubmissionDue) block.new }
{
    let held = in_bytes::held(block);
    in_bytes::blank_places(block, held::places_held(held as usize));
    in_bytes::put_head(block, in_bytes::DUE, 0);
}

// The TRBs held are kept, and a submission is due.
pub fn keep(block: &mut [u8])
    requires { block_length ≤ length block.old }
    ensures { Becomes block.old (with_state (block_of block.old) SubmissionDue) block.new }
{
    block[in_bytes::STATE_AT] = in_bytes::DUE;
}

// The bytes become a fresh block with these ids, in this mode.
pub fn make(block: &mut [u8], endpoint_id: u8, slot_id: u8, mode: u8)
    requires { block_length ≤ length block.old }
    ensures { Becomes block.old (fresh_block (record { 0 = endpoint_id }) (record { 0 = slot_id }) (mode_of mode)) block.new }
{
    in_bytes::put_ids(block, endpoint_id, slot_id, mode);
    in_bytes::blank_places(block, trb::MAX_HELD);
    in_bytes::put_head(block, in_bytes::DUE, 0);
}
