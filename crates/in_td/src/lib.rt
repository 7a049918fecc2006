// An IN TD: what stays the same over it, how far it was processed, and where a transfer that failed ends it; ports `TdProcessingInfoIn`.
#![tactic(auto)]

ghost use Rattle.std.specs.Prelude.{◌≡◌, ◌-◌};
ghost use Rattle.in_td.specs.Td.{going_on, fails_at_last, is_done, is_error, unprocessed, in_td};

use td_part::{TdInfo, TdProgress};
use trb::{EndpointId, InTrbProcessingStatus, SlotId, TrbProcessingResult};

// What a transfer that failed tells where the device brought every byte asked for: Success, as the Rust does, or its failure.
#[derive(Clone, Copy)]
pub enum InMode {
    AsPorted,
    Strict,
}

// What stays the same over an IN TD.
#[derive(Clone, Copy)]
pub struct InTd {
    pub info: TdInfo,
    pub status: InTrbProcessingStatus,
    pub mode: InMode,
}

// How far a TD was processed, how many Normals are left of it, and with which result: an error ends it.
#[derive(Clone, Copy)]
pub struct TdProcessed {
    pub progress: TdProgress,
    pub normals_left: usize,
    pub result: TrbProcessingResult,
}

// Processing goes on from here.
pub fn going_on(normals_left: usize, progress: TdProgress) -> TdProcessed
    ensures { result ≡ going_on normals_left progress }
{
    TdProcessed {
        progress,
        normals_left,
        result: TrbProcessingResult::Ok,
    }
}

// In strict mode a transfer that failed does so at its last Normal, however many bytes came.
fn fails_at_last(mode: InMode, status: InTrbProcessingStatus, normals_left: usize) -> bool
    ensures { result ≡ fails_at_last mode status normals_left }
{
    matches!(mode, InMode::Strict)
        && normals_left == 1
        && !matches!(status, InTrbProcessingStatus::Success)
}

// Is a Normal full, and the transfer not failed at it?
pub fn is_done(td: InTd, normals_left: usize, residual: u32) -> bool
    ensures { result ≡ is_done td normals_left residual }
{
    residual == 0 && !fails_at_last(td.mode, td.status, normals_left)
}

// The Normals behind this one.
pub fn one_less(normals_left: usize) -> usize
    ensures { result ≡ normals_left - 1 }
{
    normals_left.saturating_sub(1)
}

// Has processing ended with an error?
pub fn is_error(res: TrbProcessingResult) -> bool
    ensures { result ≡ is_error res }
{
    !matches!(res, TrbProcessingResult::Ok)
}

// The TD of a completion.
pub fn td_of(
    endpoint_id: EndpointId,
    slot_id: SlotId,
    mode: InMode,
    status: InTrbProcessingStatus,
    data_length: u32,
) -> InTd
    ensures { result ≡ in_td endpoint_id slot_id mode status data_length }
{
    InTd {
        info: TdInfo {
            endpoint_id,
            slot_id,
            data_length,
        },
        status,
        mode,
    }
}

// No TRB was processed yet, of a TD with so many Normals.
pub fn unprocessed(normals: usize) -> TdProcessed
    ensures { result ≡ unprocessed normals }
{
    going_on(normals, td_part::at_start_of_td())
}
