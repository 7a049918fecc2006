// Which records a call of a script gives to a capture, laid into a lent buffer one behind the other. What stands in them is `capture_calls`
// and `capture_writer`'s.
#![tactic(auto)]

ghost use Rattle.std.specs.Prelude.{◌≡◌, ◌<◌, length, map};
ghost use Rattle.std.specs.Option.{IfSome};
ghost use Rattle.call_log.specs.Records.{decode};
ghost use Rattle.row_walk.specs.Rows.{row_tds, has_normal};
ghost use Rattle.row_walk.specs.Tds.{first_td};
ghost use Rattle.capture_calls.specs.Events.{in_completion_event, control_completion_event, control_request_event};
ghost use Rattle.capture_calls.specs.Captures.{writer_call, request_captures, in_submission_capture};
ghost use Rattle.captured_calls.specs.Written.{Laid};
ghost use Rattle.captured_calls.specs.Submitted.{captured_of, pipe_of, RequestsLaid, logged_records};
ghost use Rattle.captured_calls.specs.Rows.{requests_in, request_at, td_capture, td_captures, requests_behind, row_captures};

mod capture;

use call_log::Record;
pub use capture::Capture;
use capture_calls::CapturedTransfer;
use capture_record::{CaptureEvent, InPipe, InTransferType, Stamp};
use row_walk::TdResult;
use trb::{
    ControlRequestProcessingResult, ControlSubmissionState, EndpointId, InTrbProcessingStatus,
    TdBasedNormalSubmissionState, TransferTrb,
};

// What captures say from here on: whose transfers they are and when, and what an IN endpoint's are.
#[derive(Clone, Copy)]
pub struct Setting {
    pub stamp: Stamp,
    pub transfer_type: InTransferType,
}

// Lays a record, if there is one. One that is refused is left out.
fn put(capture: &mut Capture<'_>, event: Option<CaptureEvent>, payload: &[u8])
    ensures { Laid (writer_call (captured_of capture.old.setting) event payload.now) capture.old capture.new }
{
    if let Some(event) = event {
        let written = capture_writer::write_record(
            &mut capture.bytes[capture.end..],
            capture.setting.stamp,
            event,
            payload,
        );
        capture.end += written.unwrap_or(0);
    }
}

// ---- Submissions

// So many of a log's first records, each by its bytes, or as many as the log has.
// Rows, since each is decoded: `call_log::first_records` gives the bytes as they stand, to print and to carry out.
pub fn first_records(log: &[u8], records: usize) -> &[[u8; trb::RECORD_LENGTH]]
    ensures { map decode result.now ≡ logged_records records log.now }
{
    let rows = call_log::records(log);
    &rows[..records.min(rows.len())]
}

// The requests among these records, each with this payload: a record's event, if it gives one, is what `event` answers.
fn put_requests<F: Fn(Record) -> Option<CaptureEvent>>(
    capture: &mut Capture<'_>,
    event: F,
    rows: &[[u8; trb::RECORD_LENGTH]],
    payload: &[u8],
)
    requires { F.IsAlwaysCallable event }
    ensures { RequestsLaid (F.post event) payload.now (map decode rows.now) capture.old capture.new }
{
    for cells in rows {
        put(capture, event(call_log::decoded(cells)), payload);
    }
}

fn in_pipe(setting: Setting, endpoint_id: EndpointId) -> InPipe
    ensures { result ≡ pipe_of setting endpoint_id }
{
    InPipe {
        endpoint_id,
        transfer_type: setting.transfer_type,
    }
}

// A submission on an IN endpoint that logged these records.
pub fn put_in_submission(
    capture: &mut Capture<'_>,
    endpoint_id: EndpointId,
    rows: &[[u8; trb::RECORD_LENGTH]],
)
    ensures { Laid (in_submission_capture (captured_of capture.old.setting) (pipe_of capture.old.setting endpoint_id) (map decode rows.now)) capture.old capture.new }
{
    let pipe = in_pipe(capture.setting, endpoint_id);
    put_requests(
        capture,
        |record| capture_calls::in_request_event(pipe, record),
        rows,
        &[],
    );
}

// The same on a control endpoint, with the bytes that are collected.
pub fn put_control_submission(
    capture: &mut Capture<'_>,
    rows: &[[u8; trb::RECORD_LENGTH]],
    collected: &[u8],
)
    ensures { Laid (request_captures (captured_of capture.old.setting) control_request_event collected.now (map decode rows.now)) capture.old capture.new }
{
    put_requests(
        capture,
        capture_calls::control_request_event,
        rows,
        collected,
    );
}

// ---- Completions

// A completion of an IN block that was accepted in this state, `first` the address of its first TRB.
pub fn put_in_completion(
    capture: &mut Capture<'_>,
    endpoint_id: EndpointId,
    state: TdBasedNormalSubmissionState,
    first: u64,
    res: Option<InTrbProcessingStatus>,
    data: &[u8],
)
    ensures { Laid (writer_call (captured_of capture.old.setting) (in_completion_event (pipe_of capture.old.setting endpoint_id) state first res) «data».now) capture.old capture.new }
{
    let pipe = in_pipe(capture.setting, endpoint_id);
    let record = capture_calls::in_completion_event(pipe, state, first, res);
    put(capture, record, data);
}

// A completion of a control block that was accepted in this state.
pub fn put_control_completion(
    capture: &mut Capture<'_>,
    state: ControlSubmissionState,
    transfer: CapturedTransfer,
    res: Option<ControlRequestProcessingResult>,
    data: &[u8],
)
    ensures { Laid (writer_call (captured_of capture.old.setting) (control_completion_event state transfer.direction transfer.request transfer.collected res) «data».now) capture.old capture.new }
{
    let record = capture_calls::control_completion_event(state, transfer, res);
    put(capture, record, data);
}

// ---- Rows

// How many TRBs the first TD of a row has: those up to the first one with its chain bit off.
fn td_length(row: &[TransferTrb]) -> usize
    ensures { result ≡ length (first_td row.now) }
{
    match row.iter().position(|trb| !trb::chain_of(trb.variant)) {
        Some(last) => last + 1,
        None => row.len(),
    }
}

fn has_normal(td: &[TransferTrb]) -> bool
    ensures { result ≡ has_normal td.now }
{
    td.iter().any(|trb| in_block::is_normal(trb.variant))
}

// Of these records, the number of the first request, if there is one.
fn next_request(rows: &[[u8; trb::RECORD_LENGTH]]) -> Option<usize>
    ensures rest { requests_in (map decode rows.now) ≡ request_at result rows.now }
    ensures below { IfSome result (λ index. index < length rows.now) }
{
    rows.iter().position(|cells| call_log::decoded(cells).kind == call_log::KIND_REQUEST)
}

// A TD that was started: the request that it logged, and its completion.
fn put_started(
    capture: &mut Capture<'_>,
    endpoint_id: EndpointId,
    request: Record,
    status: InTrbProcessingStatus,
    data: &[u8],
)
    ensures { Laid (td_capture (captured_of capture.old.setting) (pipe_of capture.old.setting endpoint_id) request status «data».now) capture.old capture.new }
{
    let pipe = in_pipe(capture.setting, endpoint_id);
    let submitted = capture_calls::in_request_event(pipe, request);
    put(capture, submitted, &[]);
    put_in_completion(
        capture,
        endpoint_id,
        TdBasedNormalSubmissionState::AwaitingRealTransfer,
        request.address,
        Some(status),
        data,
    );
}

// A TD with or without a Normal, and the records that are not looked at yet. Returns those behind its request. Where these records have no
// request it was not started.
fn put_td<'a>(
    capture: &mut Capture<'_>,
    endpoint_id: EndpointId,
    has_normal: bool,
    given: TdResult,
    rows: &'a [[u8; trb::RECORD_LENGTH]],
    data: &[u8],
) -> &'a [[u8; trb::RECORD_LENGTH]]
    ensures laid { Laid (td_captures (captured_of capture.old.setting) (pipe_of capture.old.setting endpoint_id) has_normal (requests_in (map decode rows.now)) given.status «data».now) capture.old capture.new }
    ensures left { requests_in (map decode result.now) ≡ requests_behind has_normal (requests_in (map decode rows.now)) }
{
    if !has_normal {
        return rows;
    }
    let Some(index) = next_request(rows) else {
        return &[];
    };
    let request = call_log::decoded(&rows[index]);
    put_started(capture, endpoint_id, request, given.status, data);
    &rows[index + 1..]
}

// A row, with the results of its TDs and their joined data, that logged these records: each TD that has a Normal and was started, its
// request and then its completion.
pub fn put_row(
    capture: &mut Capture<'_>,
    endpoint_id: EndpointId,
    row: &[TransferTrb],
    results: &[TdResult],
    logged: &[[u8; trb::RECORD_LENGTH]],
    data: &[u8],
)
    ensures { Laid (row_captures (captured_of capture.old.setting) (pipe_of capture.old.setting endpoint_id) (row_tds row.now results.now) (requests_in (map decode logged.now)) «data».now) capture.old capture.new }
{
    let mut trbs = row;
    let mut bytes = data;
    let mut rows = logged;
    for given in results {
        let (td, other_trbs) = trbs.split_at(td_length(trbs));
        let (own, other_bytes) = bytes.split_at((given.length as usize).min(bytes.len()));
        rows = put_td(capture, endpoint_id, has_normal(td), *given, rows, own);
        trbs = other_trbs;
        bytes = other_bytes;
    }
}
