// Which record a call gives to a capture, as endpoint_handle.rs writes them.
#![tactic(auto)]

ghost use Rattle.std.specs.Prelude.{◌≡◌};
ghost use Rattle.capture_calls.specs.Events.{in_request_event, control_request_event, in_completion_event, request_completion_event, control_completion_event};

use call_log::Record;
use capture_record::{CaptureEvent, InPipe, TransferError};
use trb::{
    ControlRequestProcessingResult, ControlSubmissionState, InTrbProcessingStatus,
    TdBasedNormalSubmissionState, UsbRequest,
};

// ---- The event that a call gives, if it gives one; its payload is lent beside it.

// Of a record that an IN endpoint logged: a request is a submission.
pub fn in_request_event(pipe: InPipe, request: Record) -> Option<CaptureEvent>
    ensures { result ≡ in_request_event pipe request }
{
    let is_request = request.kind == call_log::KIND_REQUEST;
    is_request.then_some(CaptureEvent::InSubmission(pipe, request.address, request.length))
}

// Of a record that a control endpoint logged. On OUT the payload is what was collected.
pub fn control_request_event(request: Record) -> Option<CaptureEvent>
    ensures { result ≡ control_request_event request }
{
    let is_request = request.kind == call_log::KIND_REQUEST;
    is_request.then_some(CaptureEvent::ControlSubmission(UsbRequest {
        address: request.address,
        request_type: request.request_type,
        request: request.request,
        value: request.value,
        index: request.index,
        length: request.length,
    }))
}

// Of an accepted completion of an IN block in this state, `first` the address of its first TRB. The payload is the device's data.
pub fn in_completion_event(
    pipe: InPipe,
    state: TdBasedNormalSubmissionState,
    first: u64,
    res: Option<InTrbProcessingStatus>,
) -> Option<CaptureEvent>
    ensures { result ≡ in_completion_event pipe state first res }
{
    match (state, res) {
        (TdBasedNormalSubmissionState::AwaitingRealTransfer, Some(status)) => Some(
            CaptureEvent::InCompletion(pipe, first, status),
        ),
        _ => None,
    }
}

// What a completion's record may say of a control transfer.
#[derive(Clone, Copy)]
pub struct CapturedTransfer {
    // Of the request: is it IN?
    pub direction: bool,
    pub request: UsbRequest,
    // How many bytes were collected.
    pub collected: u32,
}

// Of the device's result for a control request.
fn request_completion_event(
    transfer: CapturedTransfer,
    res: Option<ControlRequestProcessingResult>,
) -> Option<CaptureEvent>
    ensures { result ≡ request_completion_event transfer.direction transfer.request transfer.collected res }
{
    let CapturedTransfer {
        direction,
        request,
        collected,
    } = transfer;
    Some(match res? {
        ControlRequestProcessingResult::Disconnect => {
            CaptureEvent::ControlError(direction, TransferError::Disconnect, request, collected)
        }
        ControlRequestProcessingResult::Stall => {
            CaptureEvent::ControlError(direction, TransferError::Stall, request, collected)
        }
        ControlRequestProcessingResult::TransactionError => {
            CaptureEvent::ControlError(
                direction,
                TransferError::TransactionError,
                request,
                collected,
            )
        }
        ControlRequestProcessingResult::SuccessfulControlIn => {
            CaptureEvent::ControlCompletionIn(request.address)
        }
        ControlRequestProcessingResult::SuccessfulControlOut => {
            CaptureEvent::ControlCompletionOut(request.address, request.length)
        }
    })
}

// Of an accepted completion of a control block in this state, with this transfer. The payload is the device's data.
pub fn control_completion_event(
    state: ControlSubmissionState,
    transfer: CapturedTransfer,
    res: Option<ControlRequestProcessingResult>,
) -> Option<CaptureEvent>
    ensures { result ≡ control_completion_event state transfer.direction transfer.request transfer.collected res }
{
    match state {
        ControlSubmissionState::ParserError(address)
        | ControlSubmissionState::UnexpectedTrb(address) => Some(CaptureEvent::TrbError(address)),
        ControlSubmissionState::AwaitingControlRequest => {
            request_completion_event(transfer, res)
        }
        _ => None,
    }
}
