// A row of whole TDs on one IN endpoint, completed in one call.
#![tactic(auto)]

ghost use Rattle.std.specs.Prelude.{length, take};
ghost use Rattle.guest_memory.specs.Places.{regions_of};
ghost use Rattle.guest_memory.specs.Lent.{seen};
ghost use Rattle.in_row.specs.Completion.{CompletesTds};

use guest_memory::GuestView;
use in_block::InBlock;
use row_walk::TdResult;
use trb::{CompletionAnswer, TransferTrb};

// What a row comes to: a refusal, or the failing result, else Ok; TDs finished well; records; the block behind it.
#[derive(Clone, Copy)]
pub struct TdsCompleted {
    pub answer: CompletionAnswer,
    pub finished: usize,
    pub records: usize,
    pub block: InBlock,
}

// Completes a row of `count` TRBs, whole TDs with a result for each and the data joined, on an endpoint that holds nothing. Of the data and
// of guest memory only lengths and bases are read. The counts stand beside the places: with no heap, a row of more TRBs than there are
// places, as a script may ask for, is there by its count alone, and is refused by it.
pub fn complete_tds(
    log: &mut [u8],
    block: InBlock,
    row: [TransferTrb; trb::MAX_ROW],
    count: usize,
    results: [TdResult; trb::MAX_ROW],
    tds: usize,
    memory: &GuestView<'_>,
    data: &[u8],
) -> TdsCompleted
    ensures { CompletesTds block count (take count row) tds (take tds results) (length «data».now) (regions_of (seen memory.now)) log.old result log.new }
{
    let facts = in_block::facts_of(&block);
    let regions = memory.regions();
    let tested = row_questions::places(count);
    let mut test = row_questions::untested();
    for t in &row[..tested] {
        test = row_questions::test_trb(test, *t, results[test.tds], regions);
    }
    let asked = row_questions::ask_row(log.len(), regions, facts, count, test, tds, data.len());
    match asked {
        Err(refusal) => TdsCompleted {
            answer: Err(refusal),
            finished: 0,
            records: 0,
            block,
        },
        Ok(()) => {
            let walked = row_walk::walk_row(
                log,
                block.endpoint_id,
                block.slot_id,
                block.mode,
                &row[..count],
                &results[..tds],
            );
            TdsCompleted {
                answer: Ok(walked.result),
                finished: walked.finished,
                records: walked.records,
                block,
            }
        }
    }
}
