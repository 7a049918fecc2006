// The state line of an answer.
#![tactic(auto)]

ghost use Rattle.std.specs.Prelude.{◌≡◌, cond, ◌+◌, ◌*◌, length};
ghost use Rattle.numerals.specs.Digits.{bytes_hex};
ghost use Rattle.text.specs.Wrote.{HasRoom, Wrote};
ghost use Rattle.call_text.specs.Lines.{behind};
ghost use Rattle.state_text.specs.Words.{direction_in, direction_out};
ghost use Rattle.state_text.specs.Widths.{max_submission_state, max_standing, max_request, max_state, answer_limits};
ghost use Rattle.state_text.specs.Lines.{in_state, in_line, phase_word, control_state, request_bytes, request_fields, standing_fields, control_line};

use control_block::ControlTransfer;
use text::Text;
use trb::{ControlSubmissionState, ControlTransferState, TdBasedNormalSubmissionState, UsbRequest};

// ---- Limits: the constant has this name here and one in specs/Widths.antt; `answer_limits` ties the two.

// Characters of the longest answer: its first line, a line for each record, carry-out's line and a state line.
pub const MAX_ANSWER: usize = 56 + trb::MAX_ROW_RECORDS * log_text::MAX_LINE + 15 + 131;

#[derive(Clone, Copy)]
pub struct AnswerLimits {
    pub answer: usize,
}

// The constant is the number of specs/Widths.antt.
pub fn answer_limits() -> AnswerLimits
    ensures { result ≡ answer_limits }
{
    AnswerLimits { answer: MAX_ANSWER }
}

// ---- State lines

fn put_in_state(text: &mut Text<'_>, state: TdBasedNormalSubmissionState)
    requires { HasRoom max_submission_state text.old }
    ensures { Wrote max_submission_state text.old (in_state state) text.new }
{
    match state {
        TdBasedNormalSubmissionState::SubmissionDue => text.put_word(b"submit"),
        TdBasedNormalSubmissionState::CollectingTd => text.put_word(b"collecting"),
        TdBasedNormalSubmissionState::AwaitingRealTransfer => text.put_word(b"real"),
        TdBasedNormalSubmissionState::AwaitingLocalCompletion => text.put_word(b"local"),
        TdBasedNormalSubmissionState::UnsupportedTrb(addr) => {
            text.put_word(b"unsupported:");
            written_numbers::put_hex(text, addr);
        }
    }
}

// The state line of an IN endpoint.
pub fn put_in_line(text: &mut Text<'_>, state: TdBasedNormalSubmissionState, held: u32)
    requires { HasRoom max_state text.old }
    ensures { Wrote max_state text.old (in_line state held) text.new }
{
    text.put_word(b"st in ");
    put_in_state(text, state);
    call_text::put_decimal_behind(text, held);
    text.put_char(b'\n');
}

#[tactic(auto, unfolding(crate::specs::Lines::phase_word))]
fn put_phase(text: &mut Text<'_>, phase: ControlTransferState)
    requires { HasRoom 7 text.old }
    ensures { Wrote 7 text.old (phase_word phase) text.new }
{
    match phase {
        ControlTransferState::ExpectSetupStageTrb => text.put_word(b"setup "),
        ControlTransferState::MaybeDataStageTrb => text.put_word(b"maybe "),
        ControlTransferState::MoreData => text.put_word(b"more "),
        ControlTransferState::ExpectStatusStageTrb => text.put_word(b"status "),
        ControlTransferState::ExpectFinalEventDataTrb => text.put_word(b"final "),
    }
}

fn put_control_state(text: &mut Text<'_>, state: ControlSubmissionState)
    requires { HasRoom max_submission_state text.old }
    ensures { Wrote max_submission_state text.old (control_state state) text.new }
{
    match state {
        ControlSubmissionState::NoTrbSubmitted => text.put_word(b"submit"),
        ControlSubmissionState::CollectingTd => text.put_word(b"collecting"),
        ControlSubmissionState::ParserError(addr) => {
            text.put_word(b"parser:");
            written_numbers::put_hex(text, addr);
        }
        ControlSubmissionState::UnexpectedTrb(addr) => {
            text.put_word(b"unexpected:");
            written_numbers::put_hex(text, addr);
        }
        ControlSubmissionState::AwaitingControlRequest => text.put_word(b"request"),
    }
}

fn put_direction(text: &mut Text<'_>, direction: bool)
    requires { HasRoom 4 text.old }
    ensures { Wrote 4 text.old (cond direction direction_in direction_out) text.new }
{
    if direction {
        text.put_word(b" in");
    } else {
        text.put_word(b" out");
    }
}

// Writes bytes behind a space.
fn put_bytes_behind(text: &mut Text<'_>, bytes: &[u8])
    requires { HasRoom (1 + 2 * length bytes.now) text.old }
    ensures { Wrote (1 + 2 * length bytes.now) text.old (behind (bytes_hex bytes.now)) text.new }
{
    text.put_char(b' ');
    written_numbers::put_bytes(text, bytes);
}

// Request type, request, value and index, as the six bytes at offset 24 of a request record.
#[tactic(auto, unfolding(crate::specs::Lines::request_bytes))]
fn request_bytes(request: UsbRequest) -> [u8; 6]
    ensures { result ≡ request_bytes request }
{
    let [value_low, value_high] = request.value.to_le_bytes();
    let [index_low, index_high] = request.index.to_le_bytes();
    [
        request.request_type,
        request.request,
        value_low,
        value_high,
        index_low,
        index_high,
    ]
}

fn put_request(text: &mut Text<'_>, request: UsbRequest)
    requires { HasRoom max_request text.old }
    ensures { Wrote max_request text.old (request_fields request) text.new }
{
    let bytes = request_bytes(request);
    call_text::put_hex_behind(text, request.address);
    put_bytes_behind(text, &bytes);
}

// What a control block is at; `sum` is the sum over the collected bytes of (k + 1) times byte k, modulo 2^32.
#[derive(Clone, Copy)]
pub struct ControlStanding {
    pub transfer: ControlTransfer,
    pub state: ControlSubmissionState,
    pub held: u32,
    pub sum: u32,
}

fn put_standing(text: &mut Text<'_>, standing: ControlStanding)
    requires { HasRoom max_standing text.old }
    ensures { Wrote max_standing text.old (standing_fields standing) text.new }
{
    text.put_word(b"st control ");
    put_phase(text, standing.transfer.phase);
    put_control_state(text, standing.state);
    call_text::put_decimal_behind(text, standing.held);
    put_direction(text, standing.transfer.direction);
}

// The state line of a control endpoint.
pub fn put_control_line(text: &mut Text<'_>, standing: ControlStanding)
    requires { HasRoom max_state text.old }
    ensures { Wrote max_state text.old (control_line standing) text.new }
{
    put_standing(text, standing);
    call_text::put_decimal_behind(text, standing.transfer.request.length);
    call_text::put_decimal_behind(text, call_text::count(standing.transfer.collected));
    call_text::put_hex_behind(text, standing.sum as u64);
    put_request(text, standing.transfer.request);
    text.put_char(b'\n');
}
