// Carry-out: performs a log's writes on guest memory. Nothing else writes there.
#![tactic(auto)]

ghost use Rattle.std.specs.Prelude.{true, ◌≡◌, length};
ghost use Rattle.guest_memory.specs.Places.{regions_of};
ghost use Rattle.guest_memory.specs.Lent.{lent, SameRegions};
ghost use Rattle.carry_out.specs.Writes.{moves_bytes, write_in_range, writes_in_range, after_record, written, records_of};
ghost use Rattle.carry_out.specs.CarryOut.{Carried};

use call_log::Record;
use guest_memory::{GuestMemory, Place, Regions};
use trb::{Answer, Refusal};

// Is the record a write of nonzero length? No other record touches guest memory.
#[tactic(auto, unfolding(crate::specs::Writes::moves_bytes))]
fn moves_bytes(record: Record) -> bool
    ensures { result ≡ moves_bytes «record» }
{
    record.kind == call_log::KIND_WRITE && 0 < record.length
}

// Does the record, where it is a write of nonzero length, lie in the device's data, `available` bytes, and in one of the regions?
#[tactic(auto, unfolding(crate::specs::Writes::write_in_range))]
fn write_in_range(record: Record, available: usize, regions: Regions) -> bool
    ensures { result ≡ write_in_range available regions «record» }
{
    let end = record.start as usize + record.length as usize;
    !moves_bytes(record)
        || end <= available && guest_memory::check_range(regions, record.address, record.length)
}

// Question 11: does each write of nonzero length lie in the device's data and in one of the regions?
fn writes_in_range(log: &[u8], available: usize, regions: Regions) -> bool
    ensures { result ≡ writes_in_range available regions (records_of log.now) }
{
    call_log::records(log).iter().all(|cells| write_in_range(
        call_log::decoded(cells),
        available,
        regions,
    ))
}

// Carries out one record, in the region that holds its range; ports the bus's `write_bulk`.
fn perform_write(record: Record, data: &[u8], memory: &mut GuestMemory<'_>)
    requires { write_in_range (length «data».now) (regions_of (lent memory.old)) «record» ≡ true }
    ensures after { lent memory.new ≡ after_record «data».now (lent memory.old) «record» }
    ensures same { SameRegions memory.old memory.new }
{
    if moves_bytes(record) {
        let start = record.start as usize;
        let bytes = &data[start..start + record.length as usize];
        let regions = memory.regions();
        match guest_memory::place_range(regions, record.address, record.length) {
            Place::Outside => {}
            Place::InLow(offset) => buffers::copy_into(memory.low, offset, bytes),
            Place::InHigh(offset) => buffers::copy_into(memory.high, offset, bytes),
        }
    }
}

// Carries out the records of a log, one after the other.
fn perform_writes(log: &[u8], data: &[u8], memory: &mut GuestMemory<'_>)
    requires { writes_in_range (length «data».now) (regions_of (lent memory.old)) (records_of log.now) ≡ true }
    ensures after { lent memory.new ≡ written «data».now (lent memory.old) (records_of log.now) }
    ensures same { SameRegions memory.old memory.new }
{
    for cells in call_log::records(log) {
        perform_write(call_log::decoded(cells), data, memory);
    }
}

// Performs the writes of a log on guest memory: question 13, question 10, question 11 of the whole log, then every write in the
// log's order.
#[tactic(auto, unfolding(trb::specs::Questions::first_no, trb::specs::Answers::refusal_of))]
pub fn carry_out(log: &[u8], data: &[u8], memory: &mut GuestMemory<'_>) -> Answer
    ensures answer { Carried log.now «data».now (lent memory.old) result (lent memory.new) }
    ensures same { SameRegions memory.old memory.new }
{
    let regions = memory.regions();
    trb::ask(
        !guest_memory::share_an_address(regions),
        Refusal::RegionsOverlap,
    )?;
    trb::ask(log_check::well_formed(log), Refusal::MalformedLog)?;
    trb::ask(
        writes_in_range(log, data.len(), regions),
        Refusal::WriteOutOfRange,
    )?;
    perform_writes(log, data, memory);
    Ok(())
}
