// No torn frame: completion and carry-out of an IN endpoint in place, in one call.
ghost use Rattle.guest_memory.specs.Places.{memory_of};
ghost use Rattle.in_place_questions.specs.Lent.{lent_log};
ghost use Rattle.in_place.specs.InPlace.{result_of};
ghost use Rattle.in_place_delivery.specs.Delivering.{DeliversInPlace};

use answer_numbers::CompletionAnswered;
use guest_memory::GuestMemory;

// Completes what was submitted last, as `polvihe_in_complete` does, and carries its log out on guest memory, `low`'s bytes at `low_base`
// and `high`'s at `high_base`: at the event that the guest relies on, the device's bytes are at their places. The number: 0, or 1, 13, 2,
// 3, 8, 9, 11 with block, log and guest memory as they were.
#[unsafe(no_mangle)]
pub extern "C" fn polvihe_in_complete_and_carry_out(
    log: &mut [u8],
    block: &mut [u8],
    status: u8,
    data: &[u8],
    low_base: u64,
    low: &mut [u8],
    high_base: u64,
    high: &mut [u8],
) -> CompletionAnswered
    ensures { DeliversInPlace (lent_log log.old block.old) (result_of status) «data».now log.old block.old (memory_of low_base low.old high_base high.old) result log.new block.new (memory_of low_base low.new high_base high.new) }
{
    let mut memory = GuestMemory {
        low_base,
        low,
        high_base,
        high,
    };
    in_place_delivery::complete_and_carry_out(log, block, status, data, &mut memory)
}
