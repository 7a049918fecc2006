// The encoder of transfer TRBs.
#![tactic(auto, unfolding(raw_trb::specs::Raw::encoded_dwords))]

ghost use Rattle.std.specs.Prelude.{◌≡◌, ◌<◌, is_some, IfSome};
ghost use Rattle.trb.specs.declared.TransferTrbVariant.TheVariants.{SetupStage, DataStage, StatusStage, Normal, EventData, NoOp};
ghost use Rattle.raw_trb.specs.Fields.{bytes_of, control_dword};
ghost use Rattle.raw_trb.specs.Raw.{has_fields, EncodedAs, Encodes};

use raw_trb::Dwords;
use trb::{
    DataStageTrb, EventDataTrb, NoOpTrb, NormalTrb, Refusal, SetupStageTrb, StatusStageTrb,
    TransferTrbVariant,
};

// ---- Dword 3 of every kind, and the dwords by kind

fn control(
    cycle_bit: bool,
    interrupt_on_short: bool,
    chain: bool,
    interrupt_on_completion: bool,
    immediate_data: bool,
    kind: u8,
    direction: bool,
) -> u32
    requires { kind < 64 }
    ensures { result ≡ control_dword cycle_bit interrupt_on_short chain interrupt_on_completion immediate_data kind direction }
{
    cycle_bit as u32
        | (interrupt_on_short as u32) << 2
        | (chain as u32) << 4
        | (interrupt_on_completion as u32) << 5
        | (immediate_data as u32) << 6
        | (kind as u32) << 10
        | (direction as u32) << 16
}

fn normal_dwords(t: NormalTrb, cycle_bit: bool) -> Dwords
    ensures { EncodedAs (Normal t) cycle_bit result }
{
    Dwords {
        d0: (t.data_pointer & 0xffff_ffff) as u32,
        d1: (t.data_pointer >> 32) as u32,
        d2: t.transfer_length,
        d3: control(
            cycle_bit,
            t.interrupt_on_short,
            t.chain,
            t.interrupt_on_completion,
            t.immediate_data,
            raw_trb::NORMAL,
            false,
        ),
    }
}

fn setup_stage_dwords(t: SetupStageTrb, cycle_bit: bool) -> Dwords
    ensures { EncodedAs (SetupStage t) cycle_bit result }
{
    Dwords {
        d0: t.request_type as u32 | (t.request as u32) << 8 | (t.value as u32) << 16,
        d1: t.index as u32 | (t.length as u32) << 16,
        d2: 8,
        d3: control(
            cycle_bit,
            false,
            false,
            t.interrupt_on_completion,
            true,
            raw_trb::SETUP_STAGE,
            false,
        ),
    }
}

fn data_stage_dwords(t: DataStageTrb, cycle_bit: bool) -> Dwords
    ensures { EncodedAs (DataStage t) cycle_bit result }
{
    Dwords {
        d0: (t.data_pointer & 0xffff_ffff) as u32,
        d1: (t.data_pointer >> 32) as u32,
        d2: t.transfer_length,
        d3: control(
            cycle_bit,
            t.interrupt_on_short,
            t.chain,
            t.interrupt_on_completion,
            t.immediate_data,
            raw_trb::DATA_STAGE,
            t.direction,
        ),
    }
}

fn status_stage_dwords(t: StatusStageTrb, cycle_bit: bool) -> Dwords
    ensures { EncodedAs (StatusStage t) cycle_bit result }
{
    Dwords {
        d0: 0,
        d1: 0,
        d2: 0,
        d3: control(
            cycle_bit,
            false,
            t.chain,
            t.interrupt_on_completion,
            false,
            raw_trb::STATUS_STAGE,
            t.direction,
        ),
    }
}

fn event_data_dwords(t: EventDataTrb, cycle_bit: bool) -> Dwords
    ensures { EncodedAs (EventData t) cycle_bit result }
{
    Dwords {
        d0: (t.event_data & 0xffff_ffff) as u32,
        d1: (t.event_data >> 32) as u32,
        d2: 0,
        d3: control(
            cycle_bit,
            false,
            t.chain,
            t.interrupt_on_completion,
            false,
            raw_trb::EVENT_DATA,
            false,
        ),
    }
}

fn no_op_dwords(t: NoOpTrb, cycle_bit: bool) -> Dwords
    ensures { EncodedAs (NoOp t) cycle_bit result }
{
    Dwords {
        d0: 0,
        d1: 0,
        d2: 0,
        d3: control(
            cycle_bit,
            false,
            t.chain,
            t.interrupt_on_completion,
            false,
            raw_trb::NO_OP,
            false,
        ),
    }
}

// Of one of the six kinds with fields.
fn encoded(variant: TransferTrbVariant, cycle_bit: bool) -> Option<Dwords>
    ensures dwords { IfSome result (EncodedAs variant cycle_bit) }
    ensures fields { is_some result ≡ has_fields variant }
{
    Some(match variant {
        TransferTrbVariant::SetupStage(t) => setup_stage_dwords(t, cycle_bit),
        TransferTrbVariant::DataStage(t) => data_stage_dwords(t, cycle_bit),
        TransferTrbVariant::StatusStage(t) => status_stage_dwords(t, cycle_bit),
        TransferTrbVariant::Normal(t) => normal_dwords(t, cycle_bit),
        TransferTrbVariant::EventData(t) => event_data_dwords(t, cycle_bit),
        TransferTrbVariant::NoOp(t) => no_op_dwords(t, cycle_bit),
        TransferTrbVariant::Isoch | TransferTrbVariant::Unrecognized => return None,
    })
}

// ---- The 16 bytes

// The 16 bytes of a TRB.
pub fn encode(variant: TransferTrbVariant, cycle_bit: bool) -> Result<[u8; 16], Refusal>
    ensures { Encodes variant cycle_bit result }
{
    let dwords = encoded(variant, cycle_bit).ok_or(Refusal::NotEncodable)?;
    trb::ask(
        trb::transfer_length(variant) <= trb::MAX_TRANSFER_LENGTH,
        Refusal::TransferTooLong,
    )?;
    Ok(bytes_of(dwords))
}

// The bytes of four dwords.
fn bytes_of(d: Dwords) -> [u8; 16]
    ensures { result ≡ bytes_of d }
{
    let mut bytes = [0; 16];
    bytes[..4].copy_from_slice(&d.d0.to_le_bytes());
    bytes[4..8].copy_from_slice(&d.d1.to_le_bytes());
    bytes[8..12].copy_from_slice(&d.d2.to_le_bytes());
    bytes[12..].copy_from_slice(&d.d3.to_le_bytes());
    bytes
}
