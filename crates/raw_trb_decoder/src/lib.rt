// The decoder of raw transfer TRBs.
#![tactic(auto)]

ghost use Rattle.std.specs.Prelude.{◌≡◌, cond};
ghost use Rattle.trb.specs.declared.TransferTrbVariant.TheVariants.{Unrecognized};
ghost use Rattle.raw_trb.specs.Fields.{all_zero, dwords_of};
ghost use Rattle.raw_trb.specs.Layouts.{reserved_of, normal_table, setup_stage_table, data_stage_table, status_stage_table, event_data_table, no_op_table};
ghost use Rattle.raw_trb.specs.Raw.{pointer_of, normal_of, setup_stage_of, data_stage_of, status_stage_of, event_data_of, no_op_of, variant_of, decode_trb};

use raw_trb::{DecodedTrb, Dwords};
use trb::{
    DataStageTrb, EventDataTrb, NoOpTrb, NormalTrb, SetupStageTrb, StatusStageTrb,
    TransferTrbVariant,
};

// ---- Of each type, whether its reserved bits are zero, and its fields

// The number in the first two dwords.
fn pointer(d: Dwords) -> u64
    ensures { result ≡ pointer_of d }
{
    d.d0 as u64 | (d.d1 as u64) << 32
}

fn normal_clear(d: Dwords) -> bool
    ensures { result ≡ all_zero (reserved_of normal_table) d }
{
    d.d3 >> 7 & 3 == 0 && d.d3 >> 16 == 0
}

fn normal(d: Dwords) -> NormalTrb
    ensures { result ≡ normal_of d }
{
    NormalTrb {
        data_pointer: pointer(d),
        transfer_length: d.d2 & 0x1ffff,
        interrupt_on_short: d.d3 >> 2 & 1 == 1,
        chain: d.d3 >> 4 & 1 == 1,
        interrupt_on_completion: d.d3 >> 5 & 1 == 1,
        immediate_data: d.d3 >> 6 & 1 == 1,
    }
}

fn setup_stage_clear(d: Dwords) -> bool
    ensures { result ≡ all_zero (reserved_of setup_stage_table) d }
{
    d.d2 >> 17 & 0x1f == 0 && d.d3 >> 1 & 0xf == 0 && d.d3 >> 7 & 7 == 0 && d.d3 >> 18 == 0
}

fn setup_stage(d: Dwords) -> SetupStageTrb
    ensures { result ≡ setup_stage_of d }
{
    SetupStageTrb {
        request_type: (d.d0 & 0xff) as u8,
        request: (d.d0 >> 8 & 0xff) as u8,
        value: (d.d0 >> 16) as u16,
        index: (d.d1 & 0xffff) as u16,
        length: (d.d1 >> 16) as u16,
        interrupt_on_completion: d.d3 >> 5 & 1 == 1,
    }
}

fn data_stage_clear(d: Dwords) -> bool
    ensures { result ≡ all_zero (reserved_of data_stage_table) d }
{
    d.d3 >> 7 & 7 == 0 && d.d3 >> 17 == 0
}

fn data_stage(d: Dwords) -> DataStageTrb
    ensures { result ≡ data_stage_of d }
{
    DataStageTrb {
        data_pointer: pointer(d),
        transfer_length: d.d2 & 0x1ffff,
        chain: d.d3 >> 4 & 1 == 1,
        interrupt_on_completion: d.d3 >> 5 & 1 == 1,
        interrupt_on_short: d.d3 >> 2 & 1 == 1,
        immediate_data: d.d3 >> 6 & 1 == 1,
        direction: d.d3 >> 16 & 1 == 1,
    }
}

fn status_stage_clear(d: Dwords) -> bool
    ensures { result ≡ all_zero (reserved_of status_stage_table) d }
{
    d.d0 == 0
        && d.d1 == 0
        && d.d2 & 0x3fffff == 0
        && d.d3 >> 2 & 3 == 0
        && d.d3 >> 6 & 0xf == 0
        && d.d3 >> 17 == 0
}

fn status_stage(d: Dwords) -> StatusStageTrb
    ensures { result ≡ status_stage_of d }
{
    StatusStageTrb {
        chain: d.d3 >> 4 & 1 == 1,
        interrupt_on_completion: d.d3 >> 5 & 1 == 1,
        direction: d.d3 >> 16 & 1 == 1,
    }
}

fn event_data_clear(d: Dwords) -> bool
    ensures { result ≡ all_zero (reserved_of event_data_table) d }
{
    d.d2 & 0x3fffff == 0 && d.d3 >> 2 & 3 == 0 && d.d3 >> 6 & 7 == 0 && d.d3 >> 16 == 0
}

fn event_data(d: Dwords) -> EventDataTrb
    ensures { result ≡ event_data_of d }
{
    EventDataTrb {
        event_data: pointer(d),
        chain: d.d3 >> 4 & 1 == 1,
        interrupt_on_completion: d.d3 >> 5 & 1 == 1,
    }
}

// As a Status Stage TRB's but for one bit, which its table has otherwise: each of the two is the rows of its own table.
fn no_op_clear(d: Dwords) -> bool
    ensures { result ≡ all_zero (reserved_of no_op_table) d }
{
    d.d0 == 0
        && d.d1 == 0
        && d.d2 & 0x3fffff == 0
        && d.d3 >> 2 & 3 == 0
        && d.d3 >> 6 & 0xf == 0
        && d.d3 >> 16 == 0
}

fn no_op(d: Dwords) -> NoOpTrb
    ensures { result ≡ no_op_of d }
{
    NoOpTrb {
        chain: d.d3 >> 4 & 1 == 1,
        interrupt_on_completion: d.d3 >> 5 & 1 == 1,
    }
}

// ---- The TRB

// Ports `TransferTrbVariant::parse`; a reserved bit that is set makes it Unrecognized.
#[tactic(auto, unfolding(raw_trb::specs::Raw::of_type))]
fn variant(d: Dwords) -> TransferTrbVariant
    ensures { result ≡ variant_of d }
{
    let kind = (d.d3 >> 10 & 0x3f) as u8;
    match kind {
        raw_trb::NORMAL => where_clear(normal_clear(d), TransferTrbVariant::Normal(normal(d))),
        raw_trb::SETUP_STAGE => where_clear(
            setup_stage_clear(d),
            TransferTrbVariant::SetupStage(setup_stage(d)),
        ),
        raw_trb::DATA_STAGE => where_clear(
            data_stage_clear(d),
            TransferTrbVariant::DataStage(data_stage(d)),
        ),
        raw_trb::STATUS_STAGE => where_clear(
            status_stage_clear(d),
            TransferTrbVariant::StatusStage(status_stage(d)),
        ),
        raw_trb::ISOCH => TransferTrbVariant::Isoch,
        raw_trb::EVENT_DATA => where_clear(
            event_data_clear(d),
            TransferTrbVariant::EventData(event_data(d)),
        ),
        raw_trb::NO_OP => where_clear(no_op_clear(d), TransferTrbVariant::NoOp(no_op(d))),
        _ => TransferTrbVariant::Unrecognized,
    }
}

fn where_clear(clear: bool, variant: TransferTrbVariant) -> TransferTrbVariant
    ensures { result ≡ cond clear variant Unrecognized }
{
    if clear {
        variant
    } else {
        TransferTrbVariant::Unrecognized
    }
}

// The dwords of 16 bytes.
fn dwords_of(bytes: [u8; 16]) -> Dwords
    ensures { result ≡ dwords_of bytes }
{
    Dwords {
        d0: buffers::le32(&bytes, 0),
        d1: buffers::le32(&bytes, 4),
        d2: buffers::le32(&bytes, 8),
        d3: buffers::le32(&bytes, 12),
    }
}

// The TRB that 16 bytes are, and its cycle bit.
pub fn decode(bytes: [u8; 16]) -> DecodedTrb
    ensures { result ≡ decode_trb bytes }
{
    let d = dwords_of(bytes);
    DecodedTrb {
        variant: variant(d),
        cycle_bit: d.d3 & 1 == 1,
    }
}
