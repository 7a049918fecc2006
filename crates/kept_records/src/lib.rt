// Which records of a log compacting keeps: writes of 0 bytes are dropped, and a write that goes on where the one before it ends is joined
// to it.
#![tactic(auto)]

ghost use Rattle.std.specs.Prelude.{◌≡◌};
ghost use Rattle.kept_records.specs.Compact.{empty_write, same_endpoint_writes, goes_on, joins};

use call_log::Record;

// Is the record a write of 0 bytes?
#[tactic(auto, unfolding(crate::specs::Compact::empty_write))]
pub fn is_empty_write(record: Record) -> bool
    ensures { result ≡ empty_write «record» }
{
    record.kind == call_log::KIND_WRITE && record.length == 0
}

// Are both records writes, of the same endpoint and slot?
#[tactic(auto, unfolding(crate::specs::Compact::same_endpoint_writes))]
fn same_endpoint_writes(first: Record, second: Record) -> bool
    ensures { result ≡ same_endpoint_writes first second }
{
    first.kind == call_log::KIND_WRITE
        && second.kind == call_log::KIND_WRITE
        && first.endpoint_id == second.endpoint_id
        && first.slot_id == second.slot_id
}

// Does the second write go on where the first ends, in guest address and in data start? No sum leaves its width.
#[tactic(auto, unfolding(crate::specs::Compact::goes_on))]
fn goes_on(first: Record, second: Record) -> bool
    ensures { result ≡ goes_on first second }
{
    first.address.checked_add(first.length as u64) == Some(second.address)
        && first.start.checked_add(first.length) == Some(second.start)
}

// Is the second record to be joined to the first?
#[tactic(auto, unfolding(crate::specs::Compact::joins))]
pub fn joins(first: Record, second: Record) -> bool
    ensures { result ≡ joins first second }
{
    same_endpoint_writes(first, second)
        && goes_on(first, second)
        && first.length.checked_add(second.length).is_some()
}
