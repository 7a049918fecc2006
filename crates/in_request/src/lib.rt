// What an IN submission asks of a TRB and of the TD that it ends: its guest range, and S, the bytes to request.
#![tactic(auto)]

ghost use Rattle.std.specs.Prelude.{◌≡◌, ◌<◌, ◌^◌};
ghost use Rattle.in_td.specs.Normals.{normal_of, length_of, requested};
ghost use Rattle.in_request.specs.Requests.{in_guest_memory};

use guest_memory::Regions;
use trb::{TransferTrb, TransferTrbVariant};

// Question 6, of a TRB that an IN endpoint holds.
pub fn in_guest_memory(variant: TransferTrbVariant, regions: Regions) -> bool
    ensures { result ≡ in_guest_memory variant regions }
{
    match variant {
        TransferTrbVariant::Normal(normal) => guest_memory::range_inside(
            regions,
            normal.data_pointer,
            normal.transfer_length,
        ),
        _ => true,
    }
}

// The length of a Normal; of any other TRB 0.
pub fn normal_length(variant: TransferTrbVariant) -> u32
    ensures { result ≡ length_of (normal_of variant) }
{
    match variant {
        TransferTrbVariant::Normal(normal) => normal.transfer_length,
        _ => 0,
    }
}

// S, the sum of the Normal lengths of these TRBs.
pub fn requested_length(trbs: &[TransferTrb]) -> u32
    requires { requested trbs.now < 2 ^ 32 }
    ensures { result ≡ requested trbs.now }
{
    let mut sum = 0;
    for t in trbs {
        sum += normal_length(t.variant);
    }
    sum
}
