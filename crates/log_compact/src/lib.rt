// Compacting a stored log in its own buffer: the records that `kept_records` says are kept move to its front.
#![tactic(auto)]

ghost use Rattle.std.specs.Prelude.{true, ◌≡◌, ◌+◌, ◌*◌, ◌≤◌, length};
ghost use Rattle.buffers.specs.Patch.{patch};
ghost use Rattle.trb.specs.Limits.{record_length};
ghost use Rattle.kept_records.specs.Rows.{row_at, with_length, rows_in, zeroed_from};
ghost use Rattle.log_compact.specs.Kept.{joins_last, LastJoined, RowTaken};
ghost use Rattle.log_compact.specs.Compacting.{RowsKept, Compacts};

use call_log::Record;
use trb::Refusal;

// Where a record's length stands in its row.
const LENGTH_OFFSET: usize = 16;

// Is the record to be joined to the last of the first `kept` rows?
fn joins_last(log: &[u8], kept: usize, record: Record) -> bool
    requires { record_length * kept ≤ length log.now }
    ensures { result ≡ joins_last (rows_in kept log.now) «record» }
{
    0 < kept && kept_records::joins(call_log::read_record(log, kept - 1), record)
}

// Writes row number `from` as row number `to` too.
// By offsets: of the rows that `as_chunks_mut` gives no clause says what the log is at the end. And by way of an array: `copy_within` is a
// call for each row, by which a log in which no writes join takes half as many instructions more.
#[tactic(auto, unfolding(kept_records::specs::Rows::row_at))]
fn copy_row(log: &mut [u8], from: usize, to: usize)
    requires { (to ≤ from) × (record_length * (from + 1) ≤ length log.old) }
    ensures { log.new ≡ patch log.old (record_length * to) (row_at log.old from) }
{
    let start = trb::RECORD_LENGTH * from;
    let mut row = [0; trb::RECORD_LENGTH];
    row.copy_from_slice(&log[start..start + trb::RECORD_LENGTH]);
    buffers::copy_into(log, trb::RECORD_LENGTH * to, &row);
}

// Makes `count` the length of row number `index`.
fn set_length(log: &mut [u8], index: usize, count: u32)
    requires { record_length * (index + 1) ≤ length log.old }
    ensures { log.new ≡ patch log.old (record_length * index) (with_length count (row_at log.old index)) }
{
    buffers::copy_into(
        log,
        trb::RECORD_LENGTH * index + LENGTH_OFFSET,
        &count.to_le_bytes(),
    );
}

// Joins the record to the last of the first `kept` rows.
fn join_to_last(log: &mut [u8], kept: usize, record: Record)
    requires { (record_length * kept ≤ length log.old) × (joins_last (rows_in kept log.old) «record» ≡ true) }
    ensures { LastJoined log.old kept «record» log.new }
{
    let last = call_log::read_record(log, kept - 1);
    set_length(log, kept - 1, last.length + record.length);
}

// Looks at row number `index`, with `kept` rows kept of those before it: drops it, joins it to the last one kept or keeps it
// behind them. Returns how many rows are kept then.
fn take_row(log: &mut [u8], kept: usize, index: usize) -> usize
    requires { (kept ≤ index) × (record_length * (index + 1) ≤ length log.old) }
    ensures { RowTaken log.old kept index result log.new }
{
    let record = call_log::read_record(log, index);
    if kept_records::is_empty_write(record) {
        return kept;
    }
    if joins_last(log, kept, record) {
        join_to_last(log, kept, record);
        return kept;
    }
    copy_row(log, index, kept);
    kept + 1
}

// Moves the rows that are kept to the front of the log, one row after the other, and returns how many there are.
fn keep_rows(log: &mut [u8]) -> usize
    ensures { RowsKept log.old result log.new }
{
    let mut kept = 0;
    for index in 0..log.len() / trb::RECORD_LENGTH {
        kept = take_row(log, kept, index);
    }
    kept
}

// Zeroes the bytes from `start` on.
#[tactic(auto, unfolding(kept_records::specs::Rows::zeroed_from))]
fn clear_from(log: &mut [u8], start: usize)
    requires { start ≤ length log.old }
    ensures { log.new ≡ zeroed_from start log.old }
{
    log[start..].fill(0);
}

// Compacts a log in its own buffer: drops writes of 0 bytes, joins writes to those that they go on from, zeroes the rows that
// are freed, and returns how many are kept.
#[tactic(auto, unfolding(trb::specs::Questions::first_no, trb::specs::Answers::refusal_of))]
pub fn compact(log: &mut [u8]) -> Result<usize, Refusal>
    ensures { Compacts log.old result log.new }
{
    trb::ask(log_check::well_formed(log), Refusal::MalformedLog)?;
    let kept = keep_rows(log);
    clear_from(log, trb::RECORD_LENGTH * kept);
    Ok(kept)
}
