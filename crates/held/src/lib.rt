// The places of a block for the TRBs that it holds: blank ones, clearing, and whether what is held is sound.
#![tactic(auto)]

ghost use Rattle.std.specs.Prelude.{◌≡◌, min};
ghost use Rattle.trb.specs.Limits.{max_held};
ghost use Rattle.held.specs.Places.{blank_trb, cleared};
ghost use Rattle.held.specs.Sound.{supported, sound_trb, held_sound};

use trb::{NoOpTrb, TransferTrb, TransferTrbVariant};

// Whose TRBs are held.
#[derive(Clone, Copy)]
pub enum EndpointKind {
    In,
    Control,
}

// What a free place holds: NoOp, address 0, all bits off.
pub fn blank() -> TransferTrb
    ensures { result ≡ blank_trb }
{
    TransferTrb {
        variant: TransferTrbVariant::NoOp(NoOpTrb {
            chain: false,
            interrupt_on_completion: false,
        }),
        addr: 0,
        cycle_bit: false,
    }
}

// The places that are held become blank: all of them, where more are said to be held than there are.
pub fn clear(trbs: &mut [TransferTrb; trb::MAX_HELD], held: usize)
    ensures { trbs.new ≡ cleared held trbs.old }
{
    trbs[..places_held(held)].fill(blank());
}

// Is the TRB of a kind that the endpoint holds?
pub fn supports(kind: EndpointKind, variant: TransferTrbVariant) -> bool
    ensures { result ≡ supported kind variant }
{
    match kind {
        EndpointKind::In => matches!(
            variant,
            TransferTrbVariant::Normal(_)
                | TransferTrbVariant::EventData(_)
                | TransferTrbVariant::NoOp(_)
        ),
        EndpointKind::Control => matches!(
            variant,
            TransferTrbVariant::SetupStage(_)
                | TransferTrbVariant::DataStage(_)
                | TransferTrbVariant::StatusStage(_)
                | TransferTrbVariant::Normal(_)
                | TransferTrbVariant::EventData(_)
        ),
    }
}

// Is the TRB of a kind that the endpoint holds, and its length within the limit?
#[tactic(auto, unfolding(crate::specs::Sound::sound_trb))]
pub fn is_sound(kind: EndpointKind, t: TransferTrb) -> bool
    ensures { result ≡ sound_trb kind t }
{
    supports(kind, t.variant) && trb::transfer_length(t.variant) <= trb::MAX_TRANSFER_LENGTH
}

// Is each of these TRBs sound?
pub fn are_sound(kind: EndpointKind, trbs: &[TransferTrb]) -> bool
    ensures { result ≡ held_sound kind trbs.now }
{
    trbs.iter().all(|t| is_sound(kind, *t))
}

// How many of the places are held, by what a block says: no more than there are.
pub fn places_held(held: usize) -> usize
    ensures { result ≡ min held max_held }
{
    held.min(trb::MAX_HELD)
}
