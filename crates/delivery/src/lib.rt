// No torn frame: completion and carry-out in one call, with guest memory at the event that the guest relies on as its promise.
#![tactic(auto)]

ghost use Rattle.std.specs.Prelude.{◌≡◌, cond, min, length};
ghost use Rattle.trb.specs.Answers.{number_of};
ghost use Rattle.trb.specs.Questions.{first_no};
ghost use Rattle.call_log.specs.First.{first_records};
ghost use Rattle.guest_memory.specs.Places.{range_inside};
ghost use Rattle.guest_memory.specs.Lent.{lent, SameRegions};
ghost use Rattle.carry_out.specs.CarryOut.{Carried};
ghost use Rattle.in_td.specs.Normals.{normal_of, length_of};
ghost use Rattle.in_block.specs.Facts.{awaits_device};
ghost use Rattle.delivery_laws.specs.Ranges.{pointer_of, writes_inside};
ghost use Rattle.delivery.specs.Completing.{delivery_questions, Delivers};

use guest_memory::{GuestMemory, Regions};
use in_block::InBlock;
use in_endpoint::Completed;
use trb::{
    Answer, InTrbProcessingStatus, Refusal, TdBasedNormalSubmissionState, TransferTrb,
    TransferTrbVariant,
};

// ---- Question 11, of the TRBs held

// Where the range of a Normal starts; any other TRB has none.
fn normal_pointer(variant: TransferTrbVariant) -> u64
    ensures { result ≡ pointer_of (normal_of variant) }
{
    match variant {
        TransferTrbVariant::Normal(normal) => normal.data_pointer,
        _ => 0,
    }
}

// How many bytes a TRB writes, where so many are left of the device's.
pub fn bytes_taken(variant: TransferTrbVariant, left: u32) -> u32
    ensures { result ≡ min (length_of (normal_of variant)) left }
{
    in_request::normal_length(variant).min(left)
}

// Does a TRB's write of so many bytes lie in one of the regions?
pub fn write_inside(variant: TransferTrbVariant, count: u32, regions: Regions) -> bool
    ensures { result ≡ range_inside regions (pointer_of (normal_of variant)) count }
{
    guest_memory::range_inside(regions, normal_pointer(variant), count)
}

// Do the writes of these TRBs lie in one of the regions each, where the device has given so many bytes?
// Not one with `in_place_delivery`'s, over bytes: that takes a closure for each TRB, whose contract is no plainer than a second loop.
fn writes_inside(trbs: &[TransferTrb], given: u32, regions: Regions) -> bool
    ensures { result ≡ writes_inside regions given trbs.now }
{
    let mut left = given;
    // A loop that a no ends, and no `all`: what is left goes on from TRB to TRB, and a closure that counts it has no law.
    for t in trbs {
        let count = bytes_taken(t.variant, left);
        if !write_inside(t.variant, count, regions) {
            return false;
        }
        left -= count;
    }
    true
}

// ---- The questions

// How many of the device's bytes a completion writes: only where the device was awaited.
pub fn bytes_given(state: TdBasedNormalSubmissionState, data_length: u32) -> u32
    ensures { result ≡ cond (awaits_device state) data_length 0 }
{
    if in_block::awaits_device(state) {
        data_length
    } else {
        0
    }
}

// Questions 1, 13, 2, 3, 8, 9 and 11, of a log and device data of these lengths and guest memory in these regions.
#[tactic(auto, unfolding(trb::specs::Questions::first_no, crate::specs::Completing::delivery_questions))]
fn ask(
    log_length: usize,
    block: &InBlock,
    res: Option<InTrbProcessingStatus>,
    data_length: usize,
    regions: Regions,
) -> Answer
    ensures { number_of result ≡ first_no (delivery_questions log_length block.now res data_length regions) }
{
    trb::ask(trb::MIN_LOG <= log_length, Refusal::BufferTooShort)?;
    trb::ask(
        !guest_memory::share_an_address(regions),
        Refusal::RegionsOverlap,
    )?;
    in_questions::ask_completion(log_length, in_block::facts_of(block), res, data_length)?;
    let given = bytes_given(block.state, data_length as u32);
    trb::ask(
        writes_inside(in_block::held_of(block), given, regions),
        Refusal::WriteOutOfRange,
    )
}

// ---- The call

// Carries out the first records of a log, or all of one that has not so many.
pub fn carry_out_first(
    log: &[u8],
    records: usize,
    data: &[u8],
    memory: &mut GuestMemory<'_>,
) -> Answer
    ensures answer { Carried (first_records records log.now) «data».now (lent memory.old) result (lent memory.new) }
    ensures same { SameRegions memory.old memory.new }
{
    carry_out::carry_out(call_log::first_records(log, records), data, memory)
}

// Completes what was submitted last, as `next_completion` does, and carries its log out on guest memory.
// Questions 1, 13, 2, 3, 8, 9, and last 11, before anything changes.
pub fn complete_and_carry_out(
    log: &mut [u8],
    block: InBlock,
    res: Option<InTrbProcessingStatus>,
    data: &[u8],
    memory: &mut GuestMemory<'_>,
) -> Completed
    ensures delivered { Delivers block res «data».now log.old (lent memory.old) result log.new (lent memory.new) }
    ensures same { SameRegions memory.old memory.new }
{
    let regions = memory.regions();
    match ask(log.len(), &block, res, data.len(), regions) {
        Err(refusal) => Completed {
            answer: Err(refusal),
            records: 0,
            block,
        },
        Ok(()) => {
            let done = in_completion::next_completion(log, block, res, data);
            // What is asked of a log was asked above: it is carried out.
            let _ = carry_out_first(log, done.records, data, memory);
            done
        }
    }
}
