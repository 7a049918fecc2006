// The vocabulary of the endpoint engine: ids, TRBs, completion codes, device results, refusals and limits.
// Ports trb.rs, real_endpoint_handle.rs and usbrequest.rs, and the result and state enums of endpoint_handle.rs.
#![tactic(auto)]

ghost use Rattle.std.specs.Prelude.{◌≡◌, cond, Ok, Err};
ghost use Rattle.trb.specs.Answers.{number_of};
ghost use Rattle.trb.specs.Ids.{ids_in_range};
ghost use Rattle.trb.specs.Limits.{limit_table};
ghost use Rattle.trb.specs.Trbs.{transfer_length, immediate_of, chain_of};

// ---- Limits: each has this name here and one in specs/Limits.antt; `limits` ties the two.

// TRBs that a block holds.
pub const MAX_HELD: usize = 512;

// The greatest length of a DataStage or Normal TRB, a field of 17 bits.
pub const MAX_TRANSFER_LENGTH: u32 = 131071;

// Bytes that a control OUT transfer collects.
pub const MAX_COLLECTED: usize = 65535;

// Bytes of a device result: as many as the TRBs held can take.
pub const MAX_DATA: usize = MAX_HELD * (MAX_TRANSFER_LENGTH as usize);

// Endpoint ids run from 1 to this; slot ids from 1 to the largest byte.
pub const MAX_ENDPOINT_ID: u8 = 31;

// Bytes of a log record.
pub const RECORD_LENGTH: usize = 32;

// Records that a call logs.
pub const MAX_RECORDS: usize = 2 * MAX_HELD;

// Bytes of the shortest log that a call takes.
pub const MIN_LOG: usize = RECORD_LENGTH * MAX_RECORDS;

// TRBs of a row, and so the most TDs that it has: as many as a block holds, so that any TD of a row fits one.
pub const MAX_ROW: usize = MAX_HELD;

// Records that a row logs: a request for each TD, and two for each TRB.
pub const MAX_ROW_RECORDS: usize = 3 * MAX_ROW;

// Bytes of the shortest log that a row takes.
pub const MIN_ROW_LOG: usize = RECORD_LENGTH * MAX_ROW_RECORDS;

// Bytes of the longest log that is printed.
pub const MAX_PRINTED_LOG: usize = 65536;

#[derive(Clone, Copy, Debug, PartialEq, Eq)]
pub struct LimitTable {
    pub held: usize,
    pub transfer_length: u32,
    pub collected: usize,
    pub data: usize,
    pub endpoint_id: u8,
    pub record_length: usize,
    pub records: usize,
    pub log: usize,
    pub row: usize,
    pub row_records: usize,
    pub row_log: usize,
    pub printed_log: usize,
}

// The constants are the numbers of specs/Limits.antt.
pub fn limits() -> LimitTable
    ensures { result ≡ limit_table }
{
    LimitTable {
        held: MAX_HELD,
        transfer_length: MAX_TRANSFER_LENGTH,
        collected: MAX_COLLECTED,
        data: MAX_DATA,
        endpoint_id: MAX_ENDPOINT_ID,
        record_length: RECORD_LENGTH,
        records: MAX_RECORDS,
        log: MIN_LOG,
        row: MAX_ROW,
        row_records: MAX_ROW_RECORDS,
        row_log: MIN_ROW_LOG,
        printed_log: MAX_PRINTED_LOG,
    }
}

// ---- Ids: two types, so that neither can be handed over as the other.

#[derive(Clone, Copy, Debug, PartialEq, Eq)]
pub struct EndpointId(pub u8);

#[derive(Clone, Copy, Debug, PartialEq, Eq)]
pub struct SlotId(pub u8);

// Is the endpoint id 1 to 31 and the slot id 1 to 255?
#[tactic(auto, unfolding(crate::specs::Ids::ids_in_range))]
pub fn ids_in_range(endpoint_id: EndpointId, slot_id: SlotId) -> bool
    ensures { result ≡ ids_in_range endpoint_id slot_id }
{
    (1 <= endpoint_id.0) && (endpoint_id.0 <= MAX_ENDPOINT_ID) && (1 <= slot_id.0)
}

// ---- TRBs

// xHCI 1.2, 6.4.1.1
#[derive(Clone, Copy, Debug, PartialEq, Eq)]
pub struct NormalTrb {
    pub data_pointer: u64,
    pub transfer_length: u32,
    pub interrupt_on_short: bool,
    pub chain: bool,
    pub interrupt_on_completion: bool,
    pub immediate_data: bool,
}

// xHCI 1.2, 6.4.1.2.1; `length` is the setup packet's wLength, which nothing here uses.
#[derive(Clone, Copy, Debug, PartialEq, Eq)]
pub struct SetupStageTrb {
    pub request_type: u8,
    pub request: u8,
    pub value: u16,
    pub index: u16,
    pub length: u16,
    pub interrupt_on_completion: bool,
}

// xHCI 1.2, 6.4.1.2.2
#[derive(Clone, Copy, Debug, PartialEq, Eq)]
pub struct DataStageTrb {
    pub data_pointer: u64,
    pub transfer_length: u32,
    pub chain: bool,
    pub interrupt_on_completion: bool,
    pub interrupt_on_short: bool,
    pub immediate_data: bool,
    pub direction: bool,
}

// xHCI 1.2, 6.4.1.2.3
#[derive(Clone, Copy, Debug, PartialEq, Eq)]
pub struct StatusStageTrb {
    pub chain: bool,
    pub interrupt_on_completion: bool,
    pub direction: bool,
}

// xHCI 1.2, 6.4.4.2
#[derive(Clone, Copy, Debug, PartialEq, Eq)]
pub struct EventDataTrb {
    pub event_data: u64,
    pub chain: bool,
    pub interrupt_on_completion: bool,
}

// xHCI 1.2, 6.4.1.4
#[derive(Clone, Copy, Debug, PartialEq, Eq)]
pub struct NoOpTrb {
    pub chain: bool,
    pub interrupt_on_completion: bool,
}

#[derive(Clone, Copy, Debug, PartialEq, Eq)]
pub enum TransferTrbVariant {
    SetupStage(SetupStageTrb),
    DataStage(DataStageTrb),
    StatusStage(StatusStageTrb),
    Normal(NormalTrb),
    EventData(EventDataTrb),
    NoOp(NoOpTrb),
    Isoch,
    Unrecognized,
}

// A decoded TRB with its guest address and cycle bit: the Rust's `SupportedEndpointTrb`, of any kind.
#[derive(Clone, Copy, Debug, PartialEq, Eq)]
pub struct TransferTrb {
    pub variant: TransferTrbVariant,
    pub addr: u64,
    pub cycle_bit: bool,
}

// The length of a DataStage or Normal TRB; of any other 0.
pub fn transfer_length(variant: TransferTrbVariant) -> u32
    ensures { result ≡ transfer_length variant }
{
    match variant {
        TransferTrbVariant::DataStage(data_stage) => data_stage.transfer_length,
        TransferTrbVariant::Normal(normal) => normal.transfer_length,
        _ => 0,
    }
}

// The immediate data flag of a DataStage or Normal TRB; of any other, off.
// A match each: by way of one struct of both, as `control_transfer::data_of` has it, the pointer would be read for nothing.
pub fn immediate_data(variant: TransferTrbVariant) -> bool
    ensures { result ≡ immediate_of variant }
{
    match variant {
        TransferTrbVariant::DataStage(data_stage) => data_stage.immediate_data,
        TransferTrbVariant::Normal(normal) => normal.immediate_data,
        _ => false,
    }
}

// The chain bit; of a kind without one, off.
pub fn chain_of(variant: TransferTrbVariant) -> bool
    ensures { result ≡ chain_of variant }
{
    match variant {
        TransferTrbVariant::DataStage(data_stage) => data_stage.chain,
        TransferTrbVariant::StatusStage(status_stage) => status_stage.chain,
        TransferTrbVariant::Normal(normal) => normal.chain,
        TransferTrbVariant::EventData(event_data) => event_data.chain,
        TransferTrbVariant::NoOp(no_op) => no_op.chain,
        _ => false,
    }
}

// ---- Completion codes (xHCI 1.2, table 6-90): those that the engine reports.

#[derive(Clone, Copy, Debug, PartialEq, Eq)]
pub enum CompletionCode {
    Success = 1,
    UsbTransactionError = 4,
    TrbError = 5,
    StallError = 6,
    ShortPacket = 13,
}

// The number that xHCI gives a completion code.
impl From<CompletionCode> for u8 {
    ghost use Rattle.std.specs.Prelude.{◌≡◌};
    ghost use Rattle.trb.specs.Codes.{code_number};

    ghost from_gives = { λ code number. number ≡ code_number code };

    fn from(code: CompletionCode) -> u8 {
        code as u8
    }
}

// ---- Device results: the bytes themselves are lent beside them. A call takes an `Option` of one, since none may be given.

#[derive(Clone, Copy, Debug, PartialEq, Eq)]
pub enum InTrbProcessingStatus {
    Disconnect,
    Stall,
    TransactionError,
    Success,
}

#[derive(Clone, Copy, Debug, PartialEq, Eq)]
pub enum ControlRequestProcessingResult {
    Disconnect,
    Stall,
    TransactionError,
    SuccessfulControlIn,
    SuccessfulControlOut,
}

// A control request for the device (USB 2.0, 9.3), with the address of its Setup TRB.
#[derive(Clone, Copy, Debug, PartialEq, Eq)]
pub struct UsbRequest {
    pub address: u64,
    pub request_type: u8,
    pub request: u8,
    pub value: u16,
    pub index: u16,
    pub length: u32,
}

// ---- Results of a completion. A rule of the project gives the form: a case with and one without address and cycle bit, in place of the
// Rust's `Option<(u64, bool)>`.

#[derive(Clone, Copy, Debug, PartialEq, Eq)]
pub enum TrbProcessingResult {
    Ok,
    Stall,
    StallAt(u64, bool),
    TrbError,
    TransactionError,
    TransactionErrorAt(u64, bool),
    Disconnect,
}

// ---- States

// How far a control transfer has come.
#[derive(Clone, Copy, Debug, PartialEq, Eq)]
pub enum ControlTransferState {
    ExpectSetupStageTrb,
    MaybeDataStageTrb,
    MoreData,
    ExpectStatusStageTrb,
    ExpectFinalEventDataTrb,
}

// What a control endpoint is at. A submission is due in the first alone, a completion in the others.
#[derive(Clone, Copy, Debug, PartialEq, Eq)]
pub enum ControlSubmissionState {
    NoTrbSubmitted,
    CollectingTd,
    ParserError(u64),
    UnexpectedTrb(u64),
    AwaitingControlRequest,
}

// What an IN endpoint is at. A submission is due in the first alone, a completion in the others.
#[derive(Clone, Copy, Debug, PartialEq, Eq)]
pub enum TdBasedNormalSubmissionState {
    SubmissionDue,
    CollectingTd,
    AwaitingRealTransfer,
    AwaitingLocalCompletion,
    UnsupportedTrb(u64),
}

// ---- Answers

// The questions of documents 01 and 02: a case for each no, with the number that they give it. 16, 22 and 24 stand where they are answered:
// of a list of shapes, of a capture that is read, and of a record that is written to one.
#[derive(Clone, Copy, Debug, PartialEq, Eq)]
pub enum Refusal {
    BufferTooShort = 1,
    UnsoundBlock = 2,
    OutOfTurn = 3,
    TransferTooLong = 4,
    TooManyHeld = 5,
    OutsideGuestMemory = 6,
    TooMuchCollected = 7,
    DeviceResultMismatch = 8,
    DataTooLong = 9,
    MalformedLog = 10,
    WriteOutOfRange = 11,
    IdOutOfRange = 12,
    RegionsOverlap = 13,
    OutputTooShort = 14,
    MalformedRow = 15,
    NotACapture = 17,
    NotConvertible = 18,
    LinkTypesDiffer = 19,
    TimesGoBackwards = 20,
    ImmediateInput = 21,
    NotEncodable = 23,
}

// The number that documents 01 and 02 give a refusal.
impl From<Refusal> for u8 {
    ghost use Rattle.std.specs.Prelude.{◌≡◌};
    ghost use Rattle.trb.specs.Refusals.{refusal_number};

    ghost from_gives = { λ refusal number. number ≡ refusal_number refusal };

    fn from(refusal: Refusal) -> u8 {
        refusal as u8
    }
}

// What creation, submission and carry-out answer: accepted, or the question that said no.
pub type Answer = Result<(), Refusal>;

// A question that is answered so: a no ends the call with its refusal.
pub fn ask(yes: bool, refusal: Refusal) -> Answer
    ensures { result ≡ cond yes (Ok tt) (Err refusal) }
{
    if yes { Ok(()) } else { Err(refusal) }
}

// What completion answers.
pub type CompletionAnswer = Result<TrbProcessingResult, Refusal>;

// The number of any answer: document 01's for a no, 0 for a call that was accepted.
pub fn number_of<A: Copy>(answer: Result<A, Refusal>) -> u8
    ensures { result ≡ number_of answer }
{
    match answer {
        Ok(_) => 0,
        Err(refusal) => u8::from(refusal),
    }
}

// What creation returns: its answer, and the block, which is there either way (01: where an id is refused, fresh but for both ids 0).
#[derive(Clone, Copy)]
pub struct Created<B> {
    pub answer: Answer,
    pub block: B,
}

// What a call returns: its answer and, whatever that is, how many records it logged and the block behind it.
#[derive(Clone, Copy)]
pub struct Returned<A, B> {
    pub answer: A,
    pub records: usize,
    pub block: B,
}

// What a call on a block that is lent returns: the same but for the block, which is behind it where it was lent.
#[derive(Clone, Copy)]
pub struct Logged<A> {
    pub answer: A,
    pub records: usize,
}

pub type Submitted<B> = Returned<Answer, B>;

pub type Completed<B> = Returned<CompletionAnswer, B>;
