// The phase table of a control transfer: what becomes of a TRB, by phase, kind and chain bit. Ports the two matches of the
// control endpoint's `submit_trb`.
#![tactic(auto)]

ghost use Rattle.std.specs.Prelude.{◌≡◌};
ghost use Rattle.phase_table.specs.Table.{data_taken, status_taken, outcome_of, trb_outcome};
ghost use Rattle.phase_table.specs.Outcomes.{holds, restarts, requests, phase_after, state_after};

use trb::{ControlSubmissionState, ControlTransferState, TransferTrbVariant};

#[derive(Clone, Copy)]
pub enum TrbKind {
    SetupStage,
    DataStage,
    StatusStage,
    Normal,
    EventData,
    NoOp,
    Isoch,
    Unrecognized,
}

// What becomes of a TRB. The first six hold it.
#[derive(Clone, Copy)]
pub enum Outcome {
    // A transfer starts.
    StartTransfer,
    // The TRBs held are reported and cleared; a transfer starts.
    RestartTransfer,
    // More data follows.
    TakeData,
    // The status stage follows.
    TakeLastData,
    // An Event Data TRB follows.
    TakeChainedStatus,
    // The request goes to the device.
    SubmitRequest,
    // Bad in this phase.
    Unexpected,
    // Bad in every phase.
    Unsupported,
    // Not recognized.
    Unrecognized,
}

// The kind by which the phase table asks for a TRB.
impl From<TransferTrbVariant> for TrbKind {
    ghost use Rattle.std.specs.Prelude.{◌≡◌};
    ghost use Rattle.phase_table.specs.Table.{kind_of};

    ghost from_gives = { λ variant kind. kind ≡ kind_of variant };

    fn from(variant: TransferTrbVariant) -> TrbKind {
        match variant {
            TransferTrbVariant::SetupStage(_) => TrbKind::SetupStage,
            TransferTrbVariant::DataStage(_) => TrbKind::DataStage,
            TransferTrbVariant::StatusStage(_) => TrbKind::StatusStage,
            TransferTrbVariant::Normal(_) => TrbKind::Normal,
            TransferTrbVariant::EventData(_) => TrbKind::EventData,
            TransferTrbVariant::NoOp(_) => TrbKind::NoOp,
            TransferTrbVariant::Isoch => TrbKind::Isoch,
            TransferTrbVariant::Unrecognized => TrbKind::Unrecognized,
        }
    }
}

// A TRB of the data stage.
fn data_taken(chain: bool) -> Outcome
    ensures { result ≡ data_taken chain }
{
    if chain {
        Outcome::TakeData
    } else {
        Outcome::TakeLastData
    }
}

// The TRB of the status stage.
fn status_taken(chain: bool) -> Outcome
    ensures { result ≡ status_taken chain }
{
    if chain {
        Outcome::TakeChainedStatus
    } else {
        Outcome::SubmitRequest
    }
}

// The table: what becomes of a TRB of this kind, with this chain bit, in this phase.
pub fn outcome_of(phase: ControlTransferState, kind: TrbKind, chain: bool) -> Outcome
    ensures { result ≡ outcome_of phase kind chain }
{
    match (kind, phase) {
        (TrbKind::SetupStage, ControlTransferState::ExpectSetupStageTrb) => Outcome::StartTransfer,
        (TrbKind::SetupStage, _) => Outcome::RestartTransfer,
        (TrbKind::DataStage, ControlTransferState::MaybeDataStageTrb) => data_taken(chain),
        (
            TrbKind::StatusStage,
            ControlTransferState::MaybeDataStageTrb | ControlTransferState::ExpectStatusStageTrb,
        ) => status_taken(chain),
        (TrbKind::Normal | TrbKind::EventData, ControlTransferState::MoreData) => data_taken(chain),
        (TrbKind::EventData, ControlTransferState::ExpectFinalEventDataTrb) => {
            Outcome::SubmitRequest
        }
        (TrbKind::NoOp | TrbKind::Isoch, _) => Outcome::Unsupported,
        (TrbKind::Unrecognized, _) => Outcome::Unrecognized,
        _ => Outcome::Unexpected,
    }
}

// What becomes of this TRB in this phase.
#[tactic(auto, unfolding(crate::specs::Table::trb_outcome))]
pub fn trb_outcome(phase: ControlTransferState, variant: TransferTrbVariant) -> Outcome
    ensures { result ≡ trb_outcome phase variant }
{
    outcome_of(phase, TrbKind::from(variant), trb::chain_of(variant))
}

// Is the TRB held?
pub fn is_held(outcome: Outcome) -> bool
    ensures { result ≡ holds outcome }
{
    !matches!(
        outcome,
        Outcome::Unexpected | Outcome::Unsupported | Outcome::Unrecognized
    )
}

// Are the TRBs held so far cleared first?
pub fn is_restart(outcome: Outcome) -> bool
    ensures { result ≡ restarts outcome }
{
    matches!(outcome, Outcome::RestartTransfer)
}

// Does the request go to the device?
pub fn is_request(outcome: Outcome) -> bool
    ensures { result ≡ requests outcome }
{
    matches!(outcome, Outcome::SubmitRequest)
}

// The phase after the submission.
pub fn phase_after(phase: ControlTransferState, outcome: Outcome) -> ControlTransferState
    ensures { result ≡ phase_after phase outcome }
{
    match outcome {
        Outcome::StartTransfer | Outcome::RestartTransfer =>
            ControlTransferState::MaybeDataStageTrb,
        Outcome::TakeData => ControlTransferState::MoreData,
        Outcome::TakeLastData => ControlTransferState::ExpectStatusStageTrb,
        Outcome::TakeChainedStatus => ControlTransferState::ExpectFinalEventDataTrb,
        Outcome::SubmitRequest | Outcome::Unexpected => ControlTransferState::ExpectSetupStageTrb,
        Outcome::Unsupported | Outcome::Unrecognized => phase,
    }
}

// What the endpoint is at after the submission of a TRB at `addr`.
pub fn state_after(outcome: Outcome, addr: u64) -> ControlSubmissionState
    ensures { result ≡ state_after outcome addr }
{
    match outcome {
        Outcome::SubmitRequest => ControlSubmissionState::AwaitingControlRequest,
        Outcome::Unexpected | Outcome::Unsupported => ControlSubmissionState::UnexpectedTrb(addr),
        Outcome::Unrecognized => ControlSubmissionState::ParserError(addr),
        _ => ControlSubmissionState::CollectingTd,
    }
}
