// The turn of a TRB held as the completion of a control transfer comes, as in control_turn, of a TRB that is given by numbers: decoded
// first it goes through memory, which on IN cost 86 of 494 instructions, 14 of 34 ns.
#![tactic(auto)]

ghost use Rattle.std.specs.Prelude.{◌+◌, ◌*◌, ◌≤◌, length};
ghost use Rattle.trb.specs.Limits.{record_length};
ghost use Rattle.call_log.specs.Calls.{Meets};
ghost use Rattle.td_part.specs.Parts.{Within};
ghost use Rattle.held_bytes.specs.Numbers.{trb_of};
ghost use Rattle.control_chain.specs.Chain.{realize_trb};
ghost use Rattle.control_chain.specs.Endings.{next_trb};

use control_block::Ending;
use control_chain::ControlTd;
use held_bytes::TrbNumbers;
use td_part::{TdInfo, TdProgress};

// One TRB, by its kind; ports a turn of `realize_control_chain`.
fn realize_trb(
    log: &mut [u8],
    td: ControlTd,
    progress: TdProgress,
    numbers: TrbNumbers,
) -> TdProgress
    requires { (record_length * (progress.records + 2) ≤ length log.old) × Within td.info progress }
    ensures { Meets (realize_trb td progress (trb_of numbers)) progress.records log.old result log.new }
{
    let addr = numbers.addr;
    match numbers.kind {
        raw_trb::SETUP_STAGE | raw_trb::STATUS_STAGE => control_chain::realize_stage(
            log,
            td.info,
            progress,
            held_bytes::bit(numbers.flags, held_bytes::INTERRUPT_ON_COMPLETION),
            addr,
        ),
        raw_trb::DATA_STAGE => {
            let stage = held_bytes::data_stage(numbers);
            control_chain::realize_data_stage(log, td, progress, stage, addr)
        }
        raw_trb::NORMAL => {
            let normal = held_bytes::normal(numbers);
            control_chain::realize_normal(log, td, progress, normal, addr)
        }
        raw_trb::EVENT_DATA => {
            let event = held_bytes::event_data(numbers);
            td_data::handle_event_data_trb(log, td.info, progress, event)
        }
        _ => progress,
    }
}

// A TRB held has its turn as the completion ends so: it is dropped, realized, or passed over.
#[tactic(auto, using(call_log::proofs::LogLaws::logged_none))]
pub fn next_trb(
    log: &mut [u8],
    ending: Ending,
    info: TdInfo,
    progress: TdProgress,
    numbers: TrbNumbers,
) -> TdProgress
    requires { (record_length * (progress.records + 2) ≤ length log.old) × Within info progress }
    ensures { Meets (next_trb ending info progress (trb_of numbers)) progress.records log.old result log.new }
{
    match ending {
        Ending::KeepCollecting | Ending::Fail(_, _) => progress,
        Ending::ReportBadTrb(_) => {
            let t = held_bytes::trb_of(numbers);
            control_dropped::report_dropped(log, info, progress, t)
        }
        Ending::Realize(given) => {
            let td = ControlTd {
                info,
                input: given.is_some(),
            };
            realize_trb(log, td, progress, numbers)
        }
    }
}
