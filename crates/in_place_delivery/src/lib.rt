// No torn frame, in place: completion and carry-out in one call over an IN block that lies in a lent row of bytes.
#![tactic(auto)]

ghost use Rattle.std.specs.Prelude.{◌≡◌, ◌≤◌, length, map};
ghost use Rattle.trb.specs.Answers.{number_of};
ghost use Rattle.trb.specs.Questions.{first_no};
ghost use Rattle.guest_memory.specs.Lent.{lent, SameRegions};
ghost use Rattle.held.specs.declared.EndpointKind.TheVariants.{In};
ghost use Rattle.held_bytes.specs.Places.{place_of};
ghost use Rattle.in_bytes.specs.Layout.{block_length, block_of};
ghost use Rattle.in_place_questions.specs.Lent.{lent_log};
ghost use Rattle.in_place.specs.InPlace.{result_of};
ghost use Rattle.delivery_laws.specs.Ranges.{writes_inside};
ghost use Rattle.delivery.specs.Completing.{delivery_questions};
ghost use Rattle.in_place_delivery.specs.Delivering.{DeliversInPlace};

use answer_numbers::CompletionAnswered;
use guest_memory::{GuestMemory, Regions};
use trb::{Answer, InTrbProcessingStatus, Refusal};

// Question 11, of the TRBs in these places: do their writes lie in one of the regions each, where the device has given so many bytes?
fn writes_inside(places: &[[u8; held_bytes::PLACE]], given: u32, regions: Regions) -> bool
    ensures { result ≡ writes_inside regions given (map (place_of In) places.now) }
{
    let mut left = given;
    // A loop that a no ends, as in `delivery`.
    for place in places {
        let one = in_bytes::trb_from(place, 0);
        let count = delivery::bytes_taken(one.variant, left);
        if !delivery::write_inside(one.variant, count, regions) {
            return false;
        }
        left -= count;
    }
    true
}

// Questions 1, 13, 2, 3, 8, 9 and 11, of the block that the bytes are.
// By value `delivery::ask`: of the steps the first two alone are shared, and the others are each a function of a block or of its bytes.
#[tactic(auto, unfolding(trb::specs::Questions::first_no, delivery::specs::Completing::delivery_questions))]
fn ask(
    log_length: usize,
    block: &[u8],
    res: Option<InTrbProcessingStatus>,
    data_length: usize,
    regions: Regions,
) -> Answer
    requires { block_length ≤ length block.now }
    ensures { number_of result ≡ first_no (delivery_questions log_length (block_of block.now) res data_length regions) }
{
    trb::ask(trb::MIN_LOG <= log_length, Refusal::BufferTooShort)?;
    trb::ask(
        !guest_memory::share_an_address(regions),
        Refusal::RegionsOverlap,
    )?;
    in_place_questions::ask_completion(log_length, block, res, data_length)?;
    let state = in_place_questions::state_of(block);
    let given = delivery::bytes_given(state, data_length as u32);
    let places = in_bytes::held_places(block);
    trb::ask(
        writes_inside(places, given, regions),
        Refusal::WriteOutOfRange,
    )
}

// Of a row of bytes that is long enough for a block.
fn deliver(
    log: &mut [u8],
    block: &mut [u8],
    res: Option<InTrbProcessingStatus>,
    data: &[u8],
    memory: &mut GuestMemory<'_>,
) -> CompletionAnswered
    requires { block_length ≤ length block.old }
    ensures delivered { DeliversInPlace (length log.old) res «data».now log.old block.old (lent memory.old) result log.new block.new (lent memory.new) }
    ensures same { SameRegions memory.old memory.new }
{
    let regions = memory.regions();
    let asked = ask(log.len(), block, res, data.len(), regions);
    if let Err(refusal) = asked {
        return answer_numbers::completed_as(Err(refusal), 0);
    }
    let done = in_place::complete(log, block, res, data.len());
    // What is asked of a log was asked above: it is carried out.
    let _ = delivery::carry_out_first(log, done.records, data, memory);
    done
}

// Completes what was submitted last, as `in_place::next_completion` does, and carries its log out on guest memory.
// Questions 1, 13, 2, 3, 8, 9, and last 11, before anything changes.
pub fn complete_and_carry_out(
    log: &mut [u8],
    block: &mut [u8],
    status: u8,
    data: &[u8],
    memory: &mut GuestMemory<'_>,
) -> CompletionAnswered
    ensures delivered { DeliversInPlace (lent_log log.old block.old) (result_of status) «data».now log.old block.old (lent memory.old) result log.new block.new (lent memory.new) }
    ensures same { SameRegions memory.old memory.new }
{
    // By hand, since what C reads is no Result that `?` could give back.
    if block.len() < in_bytes::BLOCK {
        return answer_numbers::completed_as(Err(Refusal::BufferTooShort), 0);
    }
    deliver(log, block, in_place::result_of(status), data, memory)
}
