// The TD as a lent row of TRBs: answered as completion answers for a block in that mode that holds the row and awaits the device.
#![tactic(auto)]

ghost use Rattle.std.specs.Prelude.{length};
ghost use Rattle.call_log.specs.Logs.{records_in};
ghost use Rattle.row_plan.specs.Rows.{CompletesRow, AccountedRow};

use in_td::InMode;
use trb::{CompletionAnswer, EndpointId, InTrbProcessingStatus, Logged, SlotId, TransferTrb};

// The questions that completion asks, and the walk; ports `process_td` over its own vector. Of the device's data only the length is read.
pub fn complete_row(
    log: &mut [u8],
    endpoint_id: EndpointId,
    slot_id: SlotId,
    mode: InMode,
    row: &[TransferTrb],
    res: Option<InTrbProcessingStatus>,
    data: &[u8],
) -> Logged<CompletionAnswer>
    ensures met { CompletesRow endpoint_id slot_id mode row.now res (length «data».now) log.old result log.new }
    ensures account { AccountedRow row.now (length «data».now) result.answer (records_in result.records log.new) }
{
    let tested = in_block::test_held(row);
    let asked = row_plan::ask(
        log.len(),
        endpoint_id,
        slot_id,
        mode,
        row.len(),
        tested,
        res,
        data.len(),
    );
    match asked {
        Err(refusal) => Logged {
            answer: Err(refusal),
            records: 0,
        },
        Ok(td) => {
            let processed = in_turn::process_td(log, td, tested.normals, row);
            Logged {
                answer: Ok(processed.result),
                records: processed.progress.records,
            }
        }
    }
}
