// A TRB's turn in the walk over an IN TD; ports the body of the loop of `process_td`.
#![tactic(auto)]

ghost use Rattle.std.specs.Prelude.{◌≡◌, ◌+◌, ◌*◌, ◌≤◌, length};
ghost use Rattle.trb.specs.Limits.{record_length};
ghost use Rattle.call_log.specs.Calls.{Meets};
ghost use Rattle.td_part.specs.Parts.{Within};
ghost use Rattle.in_td.specs.Td.{normals, process_trb, next_trb, process_td};

use in_td::{InTd, TdProcessed};
use trb::{TransferTrb, TransferTrbVariant};

// What a TRB does, by its kind.
#[tactic(auto, using(call_log::proofs::LogLaws::logged_none), unfolding(in_td::specs::Td::process_trb))]
pub fn process_trb(log: &mut [u8], td: InTd, so_far: TdProcessed, t: TransferTrb) -> TdProcessed
    requires { (record_length * (so_far.progress.records + 2) ≤ length log.old) × Within td.info so_far.progress }
    ensures { Meets (process_trb td so_far t) so_far.progress.records log.old result log.new }
{
    let progress = so_far.progress;
    let normals_left = so_far.normals_left;
    match t.variant {
        TransferTrbVariant::Normal(normal) => in_normal::handle_normal_trb(
            log,
            td,
            so_far,
            normal,
            t.addr,
            t.cycle_bit,
        ),
        TransferTrbVariant::EventData(event_data) => in_td::going_on(
            normals_left,
            td_data::handle_event_data_trb(log, td.info, progress, event_data),
        ),
        TransferTrbVariant::NoOp(no_op) => in_td::going_on(
            normals_left,
            td_report::report_success(
                log,
                td.info,
                progress,
                progress.edtla,
                no_op.interrupt_on_completion,
                t.addr,
            ),
        ),
        _ => in_td::going_on(normals_left, progress),
    }
}

// One TRB more is processed, unless an error has ended the walk.
#[tactic(auto, using(call_log::proofs::LogLaws::logged_none), unfolding(in_td::specs::Td::next_trb))]
pub fn next_trb(log: &mut [u8], td: InTd, so_far: TdProcessed, t: TransferTrb) -> TdProcessed
    requires { (record_length * (so_far.progress.records + 2) ≤ length log.old) × Within td.info so_far.progress }
    ensures { Meets (next_trb td so_far t) so_far.progress.records log.old result log.new }
{
    if in_td::is_error(so_far.result) {
        so_far
    } else {
        process_trb(log, td, so_far, t)
    }
}

// The walk over the TRBs of a TD, which has so many Normals; ports the loop of `process_td`.
pub fn process_td(
    log: &mut [u8],
    td: InTd,
    normals_left: usize,
    trbs: &[TransferTrb],
) -> TdProcessed
    requires normals { normals_left ≡ normals trbs.now }
    requires room { record_length * (2 * length trbs.now) ≤ length log.old }
    ensures { Meets (process_td td trbs.now) 0 log.old result log.new }
{
    let mut so_far = in_td::unprocessed(normals_left);
    for t in trbs {
        so_far = next_trb(log, td, so_far, *t);
    }
    so_far
}
