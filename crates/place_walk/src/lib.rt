// The walk over a TD whose TRBs lie in lent places: of a block, and of a row. One function, so that a TRB's turn is compiled into its loop,
// and into no other.
#![tactic(auto)]

ghost use Rattle.std.specs.Prelude.{◌≡◌, true, false, ◌+◌, ◌*◌, ◌≤◌, length, map};
ghost use Rattle.trb.specs.Limits.{record_length};
ghost use Rattle.call_log.specs.Calls.{Meets};
ghost use Rattle.held.specs.declared.EndpointKind.TheVariants.{In};
ghost use Rattle.walks.specs.Walk.{walk};
ghost use Rattle.td_part.specs.Parts.{Within};
ghost use Rattle.td_part.specs.declared.TdProcessingState.TheVariants.{Default};
ghost use Rattle.in_td.specs.Td.{going_on, process_trb, ended};
ghost use Rattle.held_bytes.specs.Places.{place_of};
ghost use Rattle.place_walk.specs.Full.{SilentNormal, Reached};

use in_td::{InTd, TdProcessed};
use td_part::{TdProcessingState, TdProgress};

// ---- Full Normals

// How far a TD was walked, and how many of its TRBs.
#[derive(Clone, Copy)]
struct FullWalked {
    processed: TdProcessed,
    count: usize,
}

// Was no Normal short?
fn is_default(state: TdProcessingState) -> bool
    ensures { result ≡ true → state ≡ Default }
{
    matches!(state, TdProcessingState::Default)
}

// Is the TRB in this place a Normal that is full, of so many bytes left, and reports nothing?
fn is_silent_normal(place: &[u8; held_bytes::PLACE], left: u32) -> bool
    ensures { result ≡ true → SilentNormal place.now left }
{
    place[held_bytes::KIND_AT] == raw_trb::NORMAL
        && !held_bytes::bit(
            place[held_bytes::FLAGS_AT],
            held_bytes::INTERRUPT_ON_COMPLETION,
        )
        && in_bytes::length_at(place, 0) <= left
}

fn full_walked(progress: TdProgress, normals_left: usize, count: usize) -> FullWalked
    ensures { result ≡ record { processed = going_on normals_left progress; count = count } }
{
    FullWalked {
        processed: in_td::going_on(normals_left, progress),
        count,
    }
}

// Walks the TRBs that a TD begins with, as long as each is a full Normal that reports nothing and not the TD's last: each has its write and
// no more, so that the loop is short.
fn walk_full(
    log: &mut [u8],
    places: &[[u8; held_bytes::PLACE]],
    td: InTd,
    from: TdProcessed,
) -> FullWalked
    requires { (record_length * (from.progress.records + 2 * length places.now) ≤ length log.old) × (Within td.info from.progress × (ended from ≡ false)) }
    ensures { (result.count ≤ length places.now) × Reached td from (map (place_of In) places.now) log.old log.new result.processed result.count }
{
    let info = td.info;
    let mut progress = from.progress;
    if !is_default(progress.state) {
        return FullWalked {
            processed: from,
            count: 0,
        };
    }
    let mut normals_left = from.normals_left;
    // Numbered: how many places were walked is given back, since the walk goes on behind them.
    for (j, place) in places.iter().enumerate() {
        if normals_left == 1 {
            return full_walked(progress, normals_left, j);
        }
        if !is_silent_normal(place, info.data_length - progress.start) {
            return full_walked(progress, normals_left, j);
        }
        let length = in_bytes::length_at(place, 0);
        let pointer = buffers::le64(place, held_bytes::VALUE_AT);
        let write = call_log::guest_write(
            pointer,
            length,
            progress.start,
            info.endpoint_id,
            info.slot_id,
        );
        call_log::put_record(log, progress.records, write);
        progress = TdProgress {
            start: progress.start + length,
            edtla: td_part::edtla_after(progress.edtla, length),
            records: progress.records + 1,
            ..progress
        };
        normals_left = in_td::one_less(normals_left);
    }
    full_walked(progress, normals_left, places.len())
}

// ---- Any TRBs

// Walks the TRBs in these places, from this state on, until an error ends the TD; ports the loop of `process_td`.
pub fn walk_places(
    log: &mut [u8],
    places: &[[u8; held_bytes::PLACE]],
    td: InTd,
    from: TdProcessed,
) -> TdProcessed
    requires { (record_length * (from.progress.records + 2 * length places.now) ≤ length log.old) × (Within td.info from.progress × (ended from ≡ false)) }
    ensures { Meets (walk (process_trb td) ended from (map (place_of In) places.now)) from.progress.records log.old result log.new }
{
    let full = walk_full(log, places, td, from);
    let mut processed = full.processed;
    for place in &places[full.count..] {
        let t = in_bytes::trb_from(place, 0);
        processed = in_turn::process_trb(log, td, processed, t);
        if in_td::is_error(processed.result) {
            return processed;
        }
    }
    processed
}
