// Question 10: is a log a multiple of 32 bytes with every kind 1, 2 or 3? Asked by carry-out and by the log printer.
#![tactic(auto)]

ghost use Rattle.std.specs.Prelude.{◌≡◌};
ghost use Rattle.log_check.specs.WellFormed.{kind_known, well_formed};

// Is the kind of a record 1, 2 or 3?
#[tactic(auto, unfolding(crate::specs::WellFormed::kind_known))]
fn kind_known(kind: u8) -> bool
    ensures { result ≡ kind_known kind }
{
    matches!(
        kind,
        call_log::KIND_WRITE | call_log::KIND_EVENT | call_log::KIND_REQUEST
    )
}

// Is the log a multiple of 32 bytes with every kind 1, 2 or 3?
pub fn well_formed(log: &[u8]) -> bool
    ensures { result ≡ well_formed log.now }
{
    log.len() % trb::RECORD_LENGTH == 0
        && call_log::records(log)
            .iter()
            .all(|cells| kind_known(cells[0]))
}
