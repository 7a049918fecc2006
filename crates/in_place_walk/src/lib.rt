// The TD that an IN block in place holds: with what it is walked, and the walk.
#![tactic(auto)]

ghost use Rattle.std.specs.Prelude.{◌≡◌, ◌≤◌, length, map};
ghost use Rattle.trb.specs.Limits.{max_held, min_log};
ghost use Rattle.call_log.specs.Calls.{Meets};
ghost use Rattle.in_td.specs.Td.{in_td, process_td};
ghost use Rattle.held.specs.declared.EndpointKind.TheVariants.{In};
ghost use Rattle.held_bytes.specs.Places.{place_of};
ghost use Rattle.in_bytes.specs.Layout.{block_length, endpoint_of, slot_of, block_of};

use in_td::{InTd, TdProcessed};
use trb::InTrbProcessingStatus;

// The TD in these places is walked, until an error ends it.
// That the log is long enough is what question 1 asked of the caller's slice: behind it only a type made for this call could say so.
pub fn walk(log: &mut [u8], places: &[[u8; held_bytes::PLACE]], td: InTd) -> TdProcessed
    requires { (min_log ≤ length log.old) × (length places.now ≤ max_held) }
    ensures { Meets (process_td td (map (place_of In) places.now)) 0 log.old result log.new }
{
    let unprocessed = in_td::unprocessed(in_bytes::count_normals(places));
    place_walk::walk_places(log, places, td, unprocessed)
}

// The TD of the block, with this status and so many bytes.
#[tactic(auto, unfolding(in_bytes::specs::Layout::block_of))]
pub fn td_of(block: &[u8], status: InTrbProcessingStatus, data_length: u32) -> InTd
    requires { block_length ≤ length block.now }
    ensures { result ≡ in_td (endpoint_of block.now) (slot_of block.now) (block_of block.now).mode status data_length }
{
    in_td::td_of(
        in_bytes::endpoint_id(block),
        in_bytes::slot_id(block),
        in_bytes::mode(block),
        status,
        data_length,
    )
}
