// A TRB that is given by numbers, with the data that it moves.
ghost use Rattle.std.specs.Prelude.{◌≡◌};
ghost use Rattle.held_bytes.specs.Numbers.{trb_of};
ghost use Rattle.control_transfer.specs.Data.{data_of};

use control_transfer::TrbData;
use held_bytes::TrbNumbers;

#[derive(Clone, Copy)]
pub struct NumberedTrb {
    pub numbers: TrbNumbers,
    pub moved: TrbData,
    pub ghost by_kind: { moved ≡ data_of (trb_of numbers).variant },
}
