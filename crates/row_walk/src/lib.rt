// The walk over a row of whole TDs on one IN endpoint: no block is held, and each record is written where it stays.
#![tactic(auto)]

ghost use Rattle.std.specs.Prelude.{◌≡◌, true, not, ◌+◌, ◌*◌, ◌<◌, ◌≤◌, ◌^◌, eqb, length};
ghost use Rattle.trb.specs.Limits.{record_length, max_row};
ghost use Rattle.call_log.specs.Calls.{Meets, counted};
ghost use Rattle.call_log.specs.Records.{in_request, when};
ghost use Rattle.in_td.specs.Normals.{normal_length, requested};
ghost use Rattle.in_td.specs.Td.{normal_count};
ghost use Rattle.row_walk.specs.Rows.{nothing_asked, asked_more, looked_at, unstarted, td_done, process_row, from, td_from, Walkable};
ghost use Rattle.row_walk.specs.Tds.{endsTd};

use in_td::{InMode, InTd, TdProcessed};
use td_part::TdProgress;
use trb::{
    EndpointId, InTrbProcessingStatus, SlotId, TransferTrb, TransferTrbVariant, TrbProcessingResult,
};

// What the device gave for a TD: so many bytes of the joined data.
#[derive(Clone, Copy)]
pub struct TdResult {
    pub status: InTrbProcessingStatus,
    pub length: u32,
}

// How far a row was walked: TDs finished well, the result of the last one started, where in the joined data the next one's data
// starts, and the number of records logged.
#[derive(Clone, Copy)]
pub struct RowProgress {
    pub finished: usize,
    pub result: TrbProcessingResult,
    pub start: u32,
    pub records: usize,
}

// What a TD asks of the device, as far as it was looked at: S, and its Normals.
#[derive(Clone, Copy, Default)]
pub struct TdAsk {
    pub length: u32,
    pub normals: usize,
}

// A TD that was looked at whole: what it asks, and the index behind its last TRB.
#[derive(Clone, Copy)]
pub struct TdLooked {
    pub asked: TdAsk,
    pub end: usize,
}

// Before its first TRB was looked at.
pub fn nothing_asked() -> TdAsk
    ensures { result ≡ nothing_asked }
{
    TdAsk::default()
}

// 1 for a Normal, 0 for another TRB.
fn normal_count(variant: TransferTrbVariant) -> usize
    ensures { result ≡ normal_count variant }
{
    usize::from(in_block::is_normal(variant))
}

// With one TRB more.
pub fn asked_more(asked: TdAsk, t: TransferTrb) -> TdAsk
    requires { (asked.length + normal_length t < 2 ^ 32) × (asked.normals + normal_count t.variant < 2 ^ 64) }
    ensures { result ≡ asked_more asked t }
{
    TdAsk {
        length: asked.length + in_request::normal_length(t.variant),
        normals: asked.normals + normal_count(t.variant),
    }
}

// Looks at the TD whose first TRB has this index.
// Not one with `in_place_row`'s, over bytes: that takes a closure for each TRB, whose contract is no plainer than a second loop.
fn look_at_td(row: &[TransferTrb], first: usize) -> TdLooked
    requires { (first < length row.now) × ((length row.now ≤ max_row) × ((endsTd row.now ≡ true) × (requested row.now < 2 ^ 32))) }
    ensures { result ≡ looked_at row.now first }
{
    let mut asked = nothing_asked();
    // An index: it is what is looked for. By `position` and `fold` the TRBs of each TD would be gone over once more.
    for last in first..row.len() {
        let t = row[last];
        asked = asked_more(asked, t);
        if !trb::chain_of(t.variant) {
            return TdLooked {
                asked,
                end: last + 1,
            };
        }
    }
    TdLooked {
        asked,
        end: row.len(),
    }
}

// Logs the request of a TD whose first TRB is at `addr`, if it has a Normal.
pub fn log_request(
    log: &mut [u8],
    records: usize,
    asked: TdAsk,
    addr: u64,
    endpoint_id: EndpointId,
    slot_id: SlotId,
) -> usize
    requires { record_length * (records + 1) ≤ length log.old }
    ensures { Meets (counted records (when (not (eqb asked.normals 0)) (in_request addr asked.length endpoint_id slot_id))) records log.old result log.new }
{
    let request = call_log::in_request(addr, asked.length, endpoint_id, slot_id);
    call_log::put_when(log, records, asked.normals != 0, request)
}

// The TD whose data starts at byte `start` of the joined data.
pub fn td_from(
    endpoint_id: EndpointId,
    slot_id: SlotId,
    mode: InMode,
    start: u32,
    given: TdResult,
) -> InTd
    requires { start + given.length < 2 ^ 32 }
    ensures { result ≡ td_from endpoint_id slot_id mode start given }
{
    let end = start + given.length;
    in_td::td_of(endpoint_id, slot_id, mode, given.status, end)
}

// Before its first TRB.
pub fn unprocessed_from(start: u32, records: usize, normals: usize) -> TdProcessed
    ensures { result ≡ from start records normals }
{
    let progress = TdProgress {
        start,
        records,
        ..td_part::at_start_of_td()
    };
    in_td::going_on(normals, progress)
}

// Before the first TD.
pub fn at_start_of_row() -> RowProgress
    ensures { result ≡ unstarted }
{
    RowProgress {
        finished: 0,
        result: TrbProcessingResult::Ok,
        start: 0,
        records: 0,
    }
}

// Behind a TD, finished well or failed.
pub fn td_done(so_far: RowProgress, given: TdResult, processed: TdProcessed) -> RowProgress
    requires { (so_far.finished + 1 < 2 ^ 64) × (so_far.start + given.length < 2 ^ 32) }
    ensures { result ≡ td_done so_far given processed.result processed.progress.records }
{
    let failed = in_td::is_error(processed.result);
    RowProgress {
        finished: if failed {
            so_far.finished
        } else {
            so_far.finished + 1
        },
        result: processed.result,
        start: so_far.start + given.length,
        records: processed.progress.records,
    }
}

// The walk over the TDs of a row, and over the TRBs of each: a failing TRB leaves both. Where a TD ends is known only once its chain was
// followed, and its TRBs are then walked a second time.
pub fn walk_row(
    log: &mut [u8],
    endpoint_id: EndpointId,
    slot_id: SlotId,
    mode: InMode,
    row: &[TransferTrb],
    results: &[TdResult],
) -> RowProgress
    requires { (length row.now ≤ max_row) × ((length results.now ≤ max_row) × Walkable row.now results.now (length log.old)) }
    ensures { Meets (process_row endpoint_id slot_id mode row.now results.now) 0 log.old result log.new }
{
    let mut so_far = at_start_of_row();
    let mut first = 0;
    'row: for given in results {
        let TdLooked { asked, end } = look_at_td(row, first);
        let head = row[first];
        let records = log_request(log, so_far.records, asked, head.addr, endpoint_id, slot_id);
        let td = td_from(endpoint_id, slot_id, mode, so_far.start, *given);
        let mut processed = unprocessed_from(so_far.start, records, asked.normals);
        for t in &row[first..end] {
            processed = in_turn::process_trb(log, td, processed, *t);
            if in_td::is_error(processed.result) {
                so_far = td_done(so_far, *given, processed);
                break 'row;
            }
        }
        so_far = td_done(so_far, *given, processed);
        first = end;
    }
    so_far
}
