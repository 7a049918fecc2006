// Which records a call of a script gives to a capture: of the block before the call, of the records that it logged and of the bytes that it
// was given.
#![tactic(auto)]

ghost use Rattle.std.specs.Prelude.{◌≡◌, map};
ghost use Rattle.call_log.specs.Records.{decode};
ghost use Rattle.captured_calls.specs.Written.{Laid, Lays};
ghost use Rattle.call_captures.specs.Settings.{first_setting, setting_after};
ghost use Rattle.call_captures.specs.CallCaptures.{in_completion_captures, control_completion_captures, submission_captures, result_captures, no_result_captures, row_call_captures, call_captures};

use call_script::{Call, DeviceStatus};
use capture_calls::CapturedTransfer;
use capture_file::CaptureTime;
use capture_record::{InTransferType, Stamp, UsbDevice};
use captured_calls::{Capture, Setting};
use held::EndpointKind;
use session::Session;
use trb::{ControlRequestProcessingResult, InTrbProcessingStatus};

// ---- What captures say

// What captures say until a script says otherwise.
pub fn first_setting() -> Setting
    ensures { result ≡ first_setting }
{
    Setting {
        stamp: Stamp {
            device: UsbDevice {
                bus_number: 1,
                device_address: 1,
            },
            time: CaptureTime {
                seconds: 0,
                microseconds: 0,
            },
        },
        transfer_type: InTransferType::Bulk,
    }
}

// What they say behind a call.
pub fn setting_after(setting: Setting, call: Call) -> Setting
    ensures { result ≡ setting_after setting call }
{
    match call {
        Call::Time(time) => Setting {
            stamp: Stamp {
                time,
                ..setting.stamp
            },
            ..setting
        },
        Call::Captured(device, transfer_type) => Setting {
            stamp: Stamp {
                device,
                ..setting.stamp
            },
            transfer_type,
        },
        _ => setting,
    }
}

// ---- The records of a call

// A call that was made: the sessions before and behind it; the records that it logged; the bytes that are collected; the device's data.
#[derive(Clone, Copy)]
pub struct MadeCall<'a> {
    pub before: Session,
    pub after: Session,
    pub call: Call,
    pub rows: &'a [[u8; trb::RECORD_LENGTH]],
    pub collect: &'a [u8],
    pub data: &'a [u8],
}

// A submission on this endpoint.
fn put_submission(capture: &mut Capture<'_>, made: &MadeCall<'_>)
    ensures { Laid (submission_captures made.now.after.endpoint capture.old.setting made.now.before made.now.after (map decode made.now.rows.now) made.now.collect.now) capture.old capture.new }
{
    match made.after.endpoint {
        Some(EndpointKind::In) => {
            captured_calls::put_in_submission(capture, made.before.in_block.endpoint_id, made.rows)
        }
        Some(EndpointKind::Control) => {
            let collected = made
                .after
                .control_block
                .transfer
                .collected
                .min(made.collect.len());
            captured_calls::put_control_submission(capture, made.rows, &made.collect[..collected])
        }
        None => {}
    }
}

// A completion of an IN block, if it was accepted: then a submission is due behind it.
fn put_in_completion(
    capture: &mut Capture<'_>,
    made: &MadeCall<'_>,
    res: Option<InTrbProcessingStatus>,
    data: &[u8],
)
    ensures { Laid (in_completion_captures capture.old.setting made.now.before.in_block made.now.after.in_block res «data».now) capture.old capture.new }
{
    if !in_block::submission_due(made.after.in_block.state) {
        return;
    }
    captured_calls::put_in_completion(
        capture,
        made.before.in_block.endpoint_id,
        made.before.in_block.state,
        made.before.in_block.trbs[0].addr,
        res,
        data,
    );
}

// The same of a control block.
fn put_control_completion(
    capture: &mut Capture<'_>,
    made: &MadeCall<'_>,
    res: Option<ControlRequestProcessingResult>,
    data: &[u8],
)
    ensures { Laid (control_completion_captures capture.old.setting made.now.before.control_block made.now.after.control_block res «data».now) capture.old capture.new }
{
    if !control_block::submission_due(made.after.control_block.state) {
        return;
    }
    let transfer = made.before.control_block.transfer;
    captured_calls::put_control_completion(
        capture,
        made.before.control_block.state,
        CapturedTransfer {
            direction: transfer.direction,
            request: transfer.request,
            collected: call_text::count(transfer.collected),
        },
        res,
        data,
    );
}

// A completion with a device result and these data.
fn put_result(capture: &mut Capture<'_>, made: &MadeCall<'_>, status: DeviceStatus, data: &[u8])
    ensures { Laid (result_captures made.now.after.endpoint capture.old.setting made.now.before made.now.after status «data».now) capture.old capture.new }
{
    match made.after.endpoint {
        Some(EndpointKind::In) => {
            put_in_completion(capture, made, in_calls::result_of(status), data)
        }
        Some(EndpointKind::Control) => {
            let result = Some(control_calls::result_of(status));
            put_control_completion(capture, made, result, data)
        }
        None => {}
    }
}

// A completion without a device result has a record where it reports a TRB on control.
fn put_no_result(capture: &mut Capture<'_>, made: &MadeCall<'_>)
    ensures { Laid (no_result_captures made.now.after.endpoint capture.old.setting made.now.before made.now.after) capture.old capture.new }
{
    if let Some(EndpointKind::Control) = made.after.endpoint {
        put_control_completion(capture, made, None, &[]);
    }
}

// A row, as it was written down before the call.
fn put_row(capture: &mut Capture<'_>, made: &MadeCall<'_>, data: &[u8])
    ensures { Laid (row_call_captures capture.old.setting made.now.before (map decode made.now.rows.now) «data».now) capture.old capture.new }
{
    captured_calls::put_row(
        capture,
        made.before.in_block.endpoint_id,
        &made.before.row.trbs[..made.before.row.count.min(trb::MAX_ROW)],
        &made.before.row.results,
        made.rows,
        data,
    );
}

// Any call.
#[tactic(auto, unfolding(crate::specs::CallCaptures::call_captures))]
fn capture_call(capture: &mut Capture<'_>, made: &MadeCall<'_>)
    ensures { Laid (call_captures capture.old.setting made.now.before made.now.after made.now.call (map decode made.now.rows.now) made.now.collect.now made.now.«data».now) capture.old capture.new }
{
    match made.call {
        Call::Submit(_) => put_submission(capture, made),
        Call::Complete(status, bytes) => match status {
            Some(status) => {
                let given = bytes.min(made.data.len());
                put_result(capture, made, status, &made.data[..given])
            }
            None => put_no_result(capture, made),
        },
        Call::CompleteRow(bytes) => {
            let joined = bytes.min(made.data.len());
            put_row(capture, made, &made.data[..joined])
        }
        _ => {}
    }
}

// A call: its records lie at the buffer's start. Returns the index behind them.
pub fn put_call(output: &mut [u8], setting: Setting, made: &MadeCall<'_>) -> usize
    ensures { Lays (call_captures setting made.now.before made.now.after made.now.call (map decode made.now.rows.now) made.now.collect.now made.now.«data».now) output.old result output.new }
{
    let mut capture = Capture {
        bytes: output,
        end: 0,
        setting,
    };
    capture_call(&mut capture, made);
    capture.end
}
