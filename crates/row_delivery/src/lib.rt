// No torn frame, of a row of TDs: completion and carry-out in one call, with guest memory at the event of each TD as its promise.
#![tactic(auto)]

ghost use Rattle.std.specs.Prelude.{take};
ghost use Rattle.guest_memory.specs.Lent.{lent, SameRegions};
ghost use Rattle.row_delivery.specs.Completing.{DeliversTds};

use guest_memory::GuestMemory;
use in_block::InBlock;
use in_row::TdsCompleted;
use row_walk::TdResult;
use trb::TransferTrb;

// Completes a row of `count` TRBs, as `complete_tds` does, and carries its log out on guest memory. Its questions are those of the row; the
// log of an accepted row is one that carry-out accepts, and after a no it has no record.
pub fn complete_tds_and_carry_out(
    log: &mut [u8],
    block: InBlock,
    row: [TransferTrb; trb::MAX_ROW],
    count: usize,
    results: [TdResult; trb::MAX_ROW],
    tds: usize,
    data: &[u8],
    memory: &mut GuestMemory<'_>,
) -> TdsCompleted
    ensures delivered { DeliversTds block count (take count row) tds (take tds results) «data».now log.old (lent memory.old) result log.new (lent memory.new) }
    ensures same { SameRegions memory.old memory.new }
{
    let done = in_row::complete_tds(log, block, row, count, results, tds, &memory.view(), data);
    // What is asked of a log was asked above: it is carried out.
    let _ = delivery::carry_out_first(log, done.records, data, memory);
    done
}
