// The lines of a call script that print nothing: guest memory, lengths of the lent buffers, the row that is being written down.
#![tactic(auto)]

ghost use Rattle.std.specs.Prelude.{◌≡◌, ◌≤◌};
ghost use Rattle.trb.specs.Limits.{max_row};
ghost use Rattle.session.specs.Sessions.{with_lengths, quiet_ran, good_quiet};
ghost use Rattle.session_lines.specs.Lines.{FillsRegion, MovesWindow, placed, with_trb, append_trb, with_result, append_result};

use call_answer::Ran;
use guest_memory::{Region, Regions};
use in_calls::Row;
use lent_calls::Lent;
use row_walk::TdResult;
use session::Session;
use trb::TransferTrb;

// ---- Guest memory

// Of the bytes of `memory` as many as the region has, filled anew. Returns the region with as many as there are.
fn fill_region(memory: &mut [u8], region: Region) -> Region
    ensures { FillsRegion region result memory.old memory.new }
{
    let len = region.len.min(memory.len());
    script_bytes::fill_guest(&mut memory[..len], region.start_addr);
    Region { len, ..region }
}

// `w`: guest memory from here on.
pub fn move_window(
    session: Session,
    window: Regions,
    low: &mut [u8],
    high: &mut [u8],
) -> Ran<Session>
    ensures { MovesWindow session window result low.old low.new high.old high.new }
{
    let low_region = fill_region(low, window.low);
    let high_region = fill_region(high, window.high);
    let filled = Regions {
        low: low_region,
        high: high_region,
    };
    let lent = Lent {
        window: filled,
        ..session.lent
    };
    call_answer::silent(Session { lent, ..session })
}

// `b`: lengths of the lent log and collect buffer from here on.
pub fn lend_buffers(session: Session, log: usize, collect: usize) -> Ran<Session>
    ensures { result ≡ quiet_ran (good_quiet (with_lengths session log collect)) }
{
    let lent = Lent {
        log,
        collect,
        ..session.lent
    };
    call_answer::silent(Session { lent, ..session })
}

// ---- The row that is being written down

// The value goes to the place behind those taken, if there is one.
fn placed<T: Copy>(places: [T; trb::MAX_ROW], taken: usize, value: T) -> [T; trb::MAX_ROW]
    ensures { result ≡ placed places taken value }
{
    let mut next = places;
    if taken < trb::MAX_ROW {
        next[taken] = value;
    }
    next
}

// The TRB goes to its end.
fn with_trb(row: Row, t: TransferTrb) -> Row
    requires { row.count ≤ max_row }
    ensures { result ≡ with_trb row t }
{
    Row {
        trbs: placed(row.trbs, row.count, t),
        count: row.count + 1,
        ..row
    }
}

// `q`: the TRB goes to the row's end.
#[tactic(auto, unfolding(crate::specs::Lines::append_trb))]
pub fn append_trb(session: Session, t: TransferTrb) -> Ran<Session>
    ensures { result ≡ quiet_ran (append_trb session t) }
{
    if trb::MAX_ROW < session.row.count || !session::is_in(session.endpoint) {
        return call_answer::bad(session);
    }
    let row = with_trb(session.row, t);
    call_answer::silent(Session { row, ..session })
}

// Its next TD is given this.
fn with_result(row: Row, given: TdResult) -> Row
    requires { row.tds ≤ max_row }
    ensures { result ≡ with_result row given }
{
    Row {
        results: placed(row.results, row.tds, given),
        tds: row.tds + 1,
        ..row
    }
}

// `e`: the device result of the row's next TD.
#[tactic(auto, unfolding(crate::specs::Lines::append_result))]
pub fn append_result(session: Session, given: TdResult) -> Ran<Session>
    ensures { result ≡ quiet_ran (append_result session given) }
{
    if trb::MAX_ROW < session.row.tds || !session::is_in(session.endpoint) {
        return call_answer::bad(session);
    }
    let row = with_result(session.row, given);
    call_answer::silent(Session { row, ..session })
}
