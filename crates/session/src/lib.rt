// What a call script has come to, and each change of it.
#![tactic(auto)]

ghost use Rattle.std.specs.Prelude.{◌≡◌, ◌≤◌, length};
ghost use Rattle.trb.specs.Limits.{min_row_log};
ghost use Rattle.session.specs.Sessions.{new_session, is_in_endpoint, without_row, in_ran, control_ran};

use call_answer::Ran;
use control_block::{ControlBlock, GuestRelease};
use held::EndpointKind;
use in_block::InBlock;
use in_calls::Row;
use in_td::InMode;
use lent_calls::Lent;
use row_walk::TdResult;
use trb::{EndpointId, InTrbProcessingStatus, SlotId};

// Guest memory at the start: one region of this base and length.
pub const FIRST_BASE: u64 = 0x8000;

pub const FIRST_LENGTH: usize = 0x40000;

// What a script has come to. The row that is being written down has one TRB or result more than the places at most: what is behind the
// places is counted, not kept, since such a row is refused.
#[derive(Clone, Copy)]
pub struct Session {
    // Calls are made on an endpoint of this kind, if on any.
    pub endpoint: Option<EndpointKind>,
    pub in_block: InBlock,
    pub control_block: ControlBlock,
    // How much of each buffer the script lends.
    pub lent: Lent,
    pub row: Row,
}

// A script's buffers, of which its calls are lent the first bytes, and the data of its device. The log is no longer than that of a row: the
// text of an answer has room for its records.
#[derive(Drop)]
pub struct LentBuffers<'a> {
    pub log: &'a mut [u8],
    pub collect: &'a mut [u8],
    pub data: &'a [u8],
    pub low: &'a mut [u8],
    pub high: &'a mut [u8],
    pub ghost log_len_bound: { length log.now ≤ min_row_log },
}

// A script's session before its first line.
pub fn new_session() -> Session
    ensures { result ≡ new_session }
{
    let blank = held::blank();
    let nothing = TdResult {
        status: InTrbProcessingStatus::Success,
        length: 0,
    };
    Session {
        endpoint: None,
        in_block: in_block::fresh(EndpointId(0), SlotId(0), InMode::AsPorted),
        control_block: control_block::fresh(EndpointId(0), SlotId(0), GuestRelease::Release4),
        lent: Lent {
            log: call_script::MAX_LENT_LOG,
            collect: trb::MAX_COLLECTED,
            window: guest_memory::guest_regions(FIRST_BASE, FIRST_LENGTH, 0, 0),
        },
        row: Row {
            trbs: [blank; trb::MAX_ROW],
            count: 0,
            results: [nothing; trb::MAX_ROW],
            tds: 0,
        },
    }
}

// Are calls made on an IN endpoint?
pub fn is_in(endpoint: Option<EndpointKind>) -> bool
    ensures { result ≡ is_in_endpoint endpoint }
{
    matches!(endpoint, Some(EndpointKind::In))
}

// What a call on an IN endpoint leaves, which calls are made on from here on.
// One for each kind here and in `session_calls`: they name the block's field, and a session has one field for each kind.
pub fn after_in(session: Session, ran: Ran<InBlock>) -> Ran<Session>
    ensures { result ≡ in_ran session ran }
{
    Ran {
        left: Session {
            endpoint: Some(EndpointKind::In),
            in_block: ran.left,
            ..session
        },
        records: ran.records,
        good: ran.good,
    }
}

// What a call on a control endpoint leaves, likewise.
pub fn after_control(session: Session, ran: Ran<ControlBlock>) -> Ran<Session>
    ensures { result ≡ control_ran session ran }
{
    Ran {
        left: Session {
            endpoint: Some(EndpointKind::Control),
            control_block: ran.left,
            ..session
        },
        records: ran.records,
        good: ran.good,
    }
}

// No row is being written down.
pub fn without_row(session: Session) -> Session
    ensures { result ≡ without_row session }
{
    let mut next = session;
    next.row.count = 0;
    next.row.tds = 0;
    next
}
