// The control endpoint: what its calls are, by definition; creation and cancel. Ports `ControlEndpointHandle`.
#![tactic(auto)]

ghost use Rattle.std.specs.Prelude.{◌≡◌};
ghost use Rattle.control_endpoint.specs.Creation.{Creates};
ghost use Rattle.control_endpoint.specs.Submission.{places_dropped};

use control_block::{ControlBlock, GuestRelease};
use trb::{EndpointId, Refusal, SlotId};

pub type Created = trb::Created<ControlBlock>;

pub type Submitted = trb::Submitted<ControlBlock>;

pub type Completed = trb::Completed<ControlBlock>;

// ---- Submission

// How many of the `held` TRBs are dropped: all of them, where a transfer starts anew.
pub fn places_dropped(restarts: bool, held: usize) -> usize
    ensures { result ≡ places_dropped restarts held }
{
    if restarts { held } else { 0 }
}

// ---- Creation

// A fresh block for this endpoint of this slot, and for guests of this release.
// As `in_endpoint::create`: what the two share is one question; what is made is of two types, by two definitions.
#[tactic(auto, unfolding(crate::specs::Creation::creation, trb::specs::Questions::first_no, trb::specs::Answers::refusal_of))]
pub fn create(endpoint_id: EndpointId, slot_id: SlotId, release: GuestRelease) -> Created
    ensures { Creates endpoint_id slot_id release result }
{
    if trb::ids_in_range(endpoint_id, slot_id) {
        Created {
            answer: Ok(()),
            block: control_block::fresh(endpoint_id, slot_id, release),
        }
    } else {
        Created {
            answer: Err(Refusal::IdOutOfRange),
            block: control_block::fresh(EndpointId(0), SlotId(0), release),
        }
    }
}

// ---- Cancel

// Changes nothing; the Rust cancels at the device alone.
pub fn cancel(block: ControlBlock) -> ControlBlock
    ensures { result ≡ block }
{
    block
}
