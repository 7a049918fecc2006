// A submission on a control endpoint, of a TRB that is given by numbers: the outcome of phase_table, the data and the transfer of
// control_transfer, without a decoded TRB between.
#![tactic(auto)]

ghost use Rattle.std.specs.Prelude.{◌≡◌, ℕ, ◌&&◌, ◌==◌};
ghost use Rattle.phase_table.specs.Outcomes.{holds};
ghost use Rattle.phase_table.specs.Table.{kind_of, trb_outcome};
ghost use Rattle.raw_trb.specs.Layouts.{setup_stage_type};
ghost use Rattle.held_bytes.specs.Numbers.{setup_stage_of, variant_of, trb_of};
ghost use Rattle.control_transfer.specs.Data.{data_of};
ghost use Rattle.control_transfer.specs.Transfers.{begun};
ghost use Rattle.control_numbers.specs.Transfers.{size_taken};

mod numbered;

use control_block::ControlTransfer;
use control_transfer::TrbData;
use held_bytes::TrbNumbers;
pub use numbered::NumberedTrb;
use phase_table::{Outcome, TrbKind};
use trb::ControlTransferState;

// ---- What the numbers say

#[tactic(auto, unfolding(held_bytes::specs::Numbers::variant_of))]
fn kind_of(kind: u8) -> TrbKind
    ensures { (flags value len : ℕ) → result ≡ kind_of (variant_of kind flags value len) }
{
    match kind {
        raw_trb::NORMAL => TrbKind::Normal,
        raw_trb::SETUP_STAGE => TrbKind::SetupStage,
        raw_trb::DATA_STAGE => TrbKind::DataStage,
        raw_trb::STATUS_STAGE => TrbKind::StatusStage,
        raw_trb::ISOCH => TrbKind::Isoch,
        raw_trb::EVENT_DATA => TrbKind::EventData,
        raw_trb::NO_OP => TrbKind::NoOp,
        _ => TrbKind::Unrecognized,
    }
}

// What becomes of the TRB in this phase: by its kind and, of a kind that has one, its chain bit.
pub fn outcome_of(phase: ControlTransferState, numbers: TrbNumbers) -> Outcome
    ensures { result ≡ trb_outcome phase (trb_of numbers).variant }
{
    let chain = held_bytes::bit(numbers.flags, held_bytes::CHAIN);
    phase_table::outcome_of(phase, kind_of(numbers.kind), chain)
}

// What the TRB moves: nothing, but for a Normal and a Data Stage.
#[tactic(auto, unfolding(held_bytes::specs::Numbers::variant_of))]
pub fn data_of(numbers: TrbNumbers) -> TrbData
    ensures { result ≡ data_of (trb_of numbers).variant }
{
    match numbers.kind {
        raw_trb::NORMAL | raw_trb::DATA_STAGE => TrbData {
            data_pointer: numbers.value,
            transfer_length: numbers.transfer_length,
            immediate_data: held_bytes::bit(numbers.flags, held_bytes::IMMEDIATE_DATA),
        },
        _ => TrbData::default(),
    }
}

// ---- The transfer

// Does the TRB begin a transfer?
pub fn begins(outcome: Outcome, kind: u8) -> bool
    ensures { result ≡ (holds outcome && kind == setup_stage_type) }
{
    phase_table::is_held(outcome) && kind == raw_trb::SETUP_STAGE
}

// The transfer that the Setup TRB of these numbers begins.
pub fn begun(phase: ControlTransferState, numbers: TrbNumbers) -> ControlTransfer
    ensures { result ≡ begun phase (setup_stage_of numbers.flags numbers.value) numbers.addr }
{
    control_transfer::instantiate_setup_trb(phase, held_bytes::setup_stage(numbers), numbers.addr)
}

// The bytes that a TRB of this outcome, which moves this data, asks for or collects.
pub fn size_taken(outcome: Outcome, data: TrbData) -> u32
    ensures { result ≡ size_taken outcome «data» }
{
    if phase_table::is_held(outcome) {
        control_transfer::size_of(data)
    } else {
        0
    }
}
