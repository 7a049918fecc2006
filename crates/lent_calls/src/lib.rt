// The calls of a script on an endpoint, with as much of each buffer as the script lends.
#![tactic(auto)]

ghost use Rattle.std.specs.Prelude.{◌≤◌, length, take};
ghost use Rattle.trb.specs.Limits.{min_row_log};
ghost use Rattle.text.specs.Wrote.{HasRoom};
ghost use Rattle.state_text.specs.Widths.{max_answer};
ghost use Rattle.in_calls.specs.Calls.{in_call, row_call};
ghost use Rattle.control_calls.specs.Calls.{control_call, collect_behind};
ghost use Rattle.lent_calls.specs.Lent.{lent_memory, RunsLent, RunsControlLent};

use call_answer::Ran;
use call_script::Call;
use control_block::ControlBlock;
use guest_memory::{GuestMemory, Regions};
use in_block::InBlock;
use in_calls::Row;
use text::Text;

// How much is lent: bytes of log and collect buffer, and the regions. Lengths: a later line of the script may lend more of the same.
#[derive(Clone, Copy)]
pub struct Lent {
    pub log: usize,
    pub collect: usize,
    pub window: Regions,
}

// A call on an IN endpoint. Like the two below it takes slices, and no struct of them: of a field of a struct that is lent `split_at_mut`
// gets no proof, nor does a reborrow of the field into a variable. The three cut log and regions alike: a method that gives both would lend
// three slices at once, which no clause says; a function that does it for a closure is proved, but its callers find nothing of the call in
// what is inferred of the closure, and a contract written at each closure says all that stands here.
pub fn run_in(
    text: &mut Text<'_>,
    lent: Lent,
    block: InBlock,
    call: Call,
    log: &mut [u8],
    data: &[u8],
    low: &mut [u8],
    high: &mut [u8],
) -> Ran<InBlock>
    requires has_room { HasRoom max_answer text.old }
    requires log_len_bound { length log.old ≤ min_row_log }
    ensures { RunsLent (in_call block call «data».now (take lent.log log.old) (lent_memory lent low.old high.old)) lent text.old result text.new log.old log.new low.old low.new high.old high.new }
{
    let log_end = lent.log.min(log.len());
    let low_end = lent.window.low.len.min(low.len());
    let high_end = lent.window.high.len.min(high.len());
    let (low_lent, _) = low.split_at_mut(low_end);
    let (high_lent, _) = high.split_at_mut(high_end);
    let mut memory = GuestMemory {
        low_base: lent.window.low.start_addr,
        low: low_lent,
        high_base: lent.window.high.start_addr,
        high: high_lent,
    };
    in_calls::run(text, &mut log[..log_end], block, call, data, &mut memory)
}

// A row, with so many bytes of the device's data.
pub fn run_row(
    text: &mut Text<'_>,
    lent: Lent,
    block: InBlock,
    row: Row,
    bytes: usize,
    log: &mut [u8],
    data: &[u8],
    low: &mut [u8],
    high: &mut [u8],
) -> Ran<InBlock>
    requires has_room { HasRoom max_answer text.old }
    requires log_len_bound { length log.old ≤ min_row_log }
    ensures { RunsLent (row_call block row (take bytes «data».now) (take lent.log log.old) (lent_memory lent low.old high.old)) lent text.old result text.new log.old log.new low.old low.new high.old high.new }
{
    let log_end = lent.log.min(log.len());
    let low_end = lent.window.low.len.min(low.len());
    let high_end = lent.window.high.len.min(high.len());
    let given = bytes.min(data.len());
    let (low_lent, _) = low.split_at_mut(low_end);
    let (high_lent, _) = high.split_at_mut(high_end);
    let mut memory = GuestMemory {
        low_base: lent.window.low.start_addr,
        low: low_lent,
        high_base: lent.window.high.start_addr,
        high: high_lent,
    };
    in_calls::complete_row(
        text,
        &mut log[..log_end],
        block,
        row,
        &data[..given],
        &mut memory,
    )
}

// A call on a control endpoint.
pub fn run_control(
    text: &mut Text<'_>,
    lent: Lent,
    block: ControlBlock,
    call: Call,
    log: &mut [u8],
    collect: &mut [u8],
    data: &[u8],
    low: &mut [u8],
    high: &mut [u8],
) -> Ran<ControlBlock>
    requires has_room { HasRoom max_answer text.old }
    requires log_len_bound { length log.old ≤ min_row_log }
    ensures { RunsControlLent (control_call block call «data».now lent.collect collect.old (take lent.log log.old) (lent_memory lent low.old high.old)) (collect_behind block call lent.collect collect.old (take lent.log log.old) (lent_memory lent low.old high.old)) lent text.old result text.new log.old log.new collect.new low.old low.new high.old high.new }
{
    let log_end = lent.log.min(log.len());
    let low_end = lent.window.low.len.min(low.len());
    let high_end = lent.window.high.len.min(high.len());
    let (low_lent, _) = low.split_at_mut(low_end);
    let (high_lent, _) = high.split_at_mut(high_end);
    let mut memory = GuestMemory {
        low_base: lent.window.low.start_addr,
        low: low_lent,
        high_base: lent.window.high.start_addr,
        high: high_lent,
    };
    control_calls::run(
        text,
        &mut log[..log_end],
        collect,
        lent.collect,
        block,
        call,
        data,
        &mut memory,
    )
}
