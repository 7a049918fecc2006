// What IN and control endpoints know alike of one TRB of a TD: bytes moved, residual, completion code, EDTLA. Ports `Edtla` and the tests
// of `realize_dma_trb`.
#![tactic(auto)]

ghost use Rattle.std.specs.Prelude.{◌≡◌};
ghost use Rattle.td_part.specs.Parts.{Within, of_normal, of_data_stage, edtla_after, moved_of, residual_of, code_for, due_for, state_after, at_start};

use trb::{CompletionCode, DataStageTrb, EndpointId, NormalTrb, SlotId};

// The Rust's enum of that name, in place of an Option of the bytes missed.
#[derive(Clone, Copy)]
pub enum TdProcessingState {
    Default,
    // The bytes that the short TRB missed.
    ShortTransfer(u32),
}

// What stays the same over a TD. The device's data is `data_length` bytes. The two ids stand side by side here and wherever they go, and
// are no pair: each constructor of an event takes both, adjacent (01, Expected forms by place), and would take a pair apart.
#[derive(Clone, Copy)]
pub struct TdInfo {
    pub endpoint_id: EndpointId,
    pub slot_id: SlotId,
    pub data_length: u32,
}

// What each TRB changes: where in the device's data the next write starts, the EDTLA, and the number of records logged. A turn asks for
// room in the log behind these records, and uses it up: so that is a fact of each turn, and no invariant of a log and its records. The
// count stands beside the log, since this is copied from TRB to TRB, as a value with the lent log could not be.
// That the next write starts within the data (`Within`) is a fact of this and `TdInfo`, and no type's: as one value each turn would also
// promise that what stays the same over a TD stayed.
#[derive(Clone, Copy)]
pub struct TdProgress {
    pub start: u32,
    pub edtla: u32,
    pub state: TdProcessingState,
    pub records: usize,
}

// A TRB that moves data, with its address; the Rust's trait of that name.
#[derive(Clone, Copy)]
pub struct TrbDmaInfo {
    pub data_pointer: u64,
    pub transfer_length: u32,
    pub interrupt_on_short: bool,
    pub interrupt_on_completion: bool,
    pub addr: u64,
}

// A Normal as a TRB that moves data.
// Two functions and no trait or `From`: no function takes a TRB of either kind, and its address stands beside it.
pub fn of_normal(normal: NormalTrb, addr: u64) -> TrbDmaInfo
    ensures { result ≡ of_normal normal addr }
{
    TrbDmaInfo {
        data_pointer: normal.data_pointer,
        transfer_length: normal.transfer_length,
        interrupt_on_short: normal.interrupt_on_short,
        interrupt_on_completion: normal.interrupt_on_completion,
        addr,
    }
}

// A DataStage as a TRB that moves data.
pub fn of_data_stage(data_stage: DataStageTrb, addr: u64) -> TrbDmaInfo
    ensures { result ≡ of_data_stage data_stage addr }
{
    TrbDmaInfo {
        data_pointer: data_stage.data_pointer,
        transfer_length: data_stage.transfer_length,
        interrupt_on_short: data_stage.interrupt_on_short,
        interrupt_on_completion: data_stage.interrupt_on_completion,
        addr,
    }
}

// Before the first TRB.
pub fn at_start_of_td() -> TdProgress
    ensures { result ≡ at_start }
{
    TdProgress {
        start: 0,
        edtla: 0,
        state: TdProcessingState::Default,
        records: 0,
    }
}

// The EDTLA, a field of 24 bits, after `byte_count` more bytes.
pub fn edtla_after(edtla: u32, byte_count: u32) -> u32
    ensures { result ≡ edtla_after edtla byte_count }
{
    let sum = (edtla as u64) + (byte_count as u64);
    (sum & 0xff_ffff) as u32
}

// The bytes that a TRB of this length moves: as many as are left of the device's data.
pub fn moved_of(td: TdInfo, progress: TdProgress, transfer_length: u32) -> u32
    requires { Within td progress }
    ensures { result ≡ moved_of td progress transfer_length }
{
    transfer_length.min(td.data_length - progress.start)
}

// The bytes that it misses.
pub fn residual_of(td: TdInfo, progress: TdProgress, transfer_length: u32) -> u32
    requires { Within td progress }
    ensures { result ≡ residual_of td progress transfer_length }
{
    transfer_length - moved_of(td, progress, transfer_length)
}

// The code of a TRB that misses so many bytes.
pub fn code_for(residual: u32) -> CompletionCode
    ensures { result ≡ code_for residual }
{
    if residual == 0 {
        CompletionCode::Success
    } else {
        CompletionCode::ShortPacket
    }
}

// Is the event of such a TRB due?
pub fn due_for(dma: TrbDmaInfo, residual: u32) -> bool
    ensures { result ≡ due_for dma residual }
{
    dma.interrupt_on_completion || residual != 0 && dma.interrupt_on_short
}

// The residual of a short TRB is kept.
pub fn state_after(state: TdProcessingState, residual: u32) -> TdProcessingState
    ensures { result ≡ state_after state residual }
{
    if residual == 0 {
        state
    } else {
        TdProcessingState::ShortTransfer(residual)
    }
}
