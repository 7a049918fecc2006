// What the entry for a lent row of TRBs does ahead of walking the row: the questions, and the TD that they leave to be walked.
#![tactic(auto)]

ghost use Rattle.std.specs.Prelude.{◌≡◌};
ghost use Rattle.row_plan.specs.Plans.{status_of, row_plan};

use in_block::{BlockFacts, HeldTest};
use in_td::{InMode, InTd};
use trb::{EndpointId, InTrbProcessingStatus, Refusal, SlotId, TdBasedNormalSubmissionState};

// The status of a device result; where none is given, question 8 refuses the row.
fn status_of(res: Option<InTrbProcessingStatus>) -> InTrbProcessingStatus
    ensures { result ≡ status_of res }
{
    res.unwrap_or(InTrbProcessingStatus::Success)
}

// The questions that completion asks of a block that holds the row and awaits the device, by what was found of the row's TRBs; behind them,
// the TD as which the row is walked.
pub fn ask(
    log_length: usize,
    endpoint_id: EndpointId,
    slot_id: SlotId,
    mode: InMode,
    row_length: usize,
    found: HeldTest,
    res: Option<InTrbProcessingStatus>,
    data_length: usize,
) -> Result<InTd, Refusal>
    ensures { result ≡ row_plan log_length endpoint_id slot_id mode row_length found res data_length }
{
    // A row by itself has no block whose facts these were.
    let facts = BlockFacts {
        endpoint_id,
        slot_id,
        state: TdBasedNormalSubmissionState::AwaitingRealTransfer,
        held: row_length,
        found,
    };
    in_questions::ask_completion(log_length, facts, res, data_length)?;
    let status = status_of(res);
    Ok(in_td::td_of(endpoint_id, slot_id, mode, status, data_length as u32))
}
