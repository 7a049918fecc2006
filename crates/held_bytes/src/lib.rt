// A TRB by numbers, and the place of a TRB in an endpoint block that lies in a lent row of bytes: what both endpoints in place share.
#![tactic(auto)]

ghost use Rattle.std.specs.Prelude.{◌≡◌, ◌+◌, ◌<◌, ◌≤◌, length, drop, replicate};
ghost use Rattle.buffers.specs.Patch.{patch};
ghost use Rattle.trb.specs.declared.TransferTrbVariant.TheVariants.{SetupStage};
ghost use Rattle.held_bytes.specs.Numbers.{bit_of, normal_of, setup_stage_of, data_stage_of, event_data_of, no_op_of, variant_of, trb_of, flags_of, setup_value, SetupFits, numbers_of};
ghost use Rattle.held_bytes.specs.Places.{place_length, numbers_at, place_bytes};

use trb::{
    DataStageTrb, EventDataTrb, NoOpTrb, NormalTrb, SetupStageTrb, StatusStageTrb, TransferTrb,
    TransferTrbVariant,
};

// Bytes of a place, and where its fields stand behind the address.
pub const PLACE: usize = 24;

pub const VALUE_AT: usize = 8;

pub const LENGTH_AT: usize = 16;

pub const KIND_AT: usize = 20;

pub const FLAGS_AT: usize = 21;

// The layout that a block's first byte names: constants and no enum, since any byte may stand there.
pub const IN_LAYOUT: u8 = 1;

pub const CONTROL_LAYOUT: u8 = 2;

// A TRB by numbers: xHCI's type, the flags, the address, the data pointer, event data or setup bytes, and the transfer length.
#[derive(Clone, Copy)]
pub struct TrbNumbers {
    pub kind: u8,
    pub flags: u8,
    pub addr: u64,
    pub value: u64,
    pub transfer_length: u32,
}

// ---- Flags, by weight

pub const CYCLE: u8 = 1;

pub const CHAIN: u8 = 2;

pub const INTERRUPT_ON_COMPLETION: u8 = 4;

pub const INTERRUPT_ON_SHORT: u8 = 8;

pub const IMMEDIATE_DATA: u8 = 16;

pub const DIRECTION: u8 = 32;

// ---- From numbers

// Is the bit of this weight on? By division, as is promised of any weight but 0: what a mask says is this of powers of two alone.
pub fn bit(n: u8, weight: u8) -> bool
    requires { 0 < weight }
    ensures { result ≡ bit_of n weight }
{
    n / weight % 2 == 1
}

// The Normal TRB that these numbers are.
pub fn normal(numbers: TrbNumbers) -> NormalTrb
    ensures { result ≡ normal_of numbers.flags numbers.value numbers.transfer_length }
{
    NormalTrb {
        data_pointer: numbers.value,
        transfer_length: numbers.transfer_length,
        interrupt_on_short: bit(numbers.flags, INTERRUPT_ON_SHORT),
        chain: bit(numbers.flags, CHAIN),
        interrupt_on_completion: bit(numbers.flags, INTERRUPT_ON_COMPLETION),
        immediate_data: bit(numbers.flags, IMMEDIATE_DATA),
    }
}

// The Setup TRB that these numbers are.
pub fn setup_stage(numbers: TrbNumbers) -> SetupStageTrb
    ensures { result ≡ setup_stage_of numbers.flags numbers.value }
{
    let bytes = numbers.value;
    SetupStageTrb {
        request_type: (bytes & 0xff) as u8,
        request: (bytes >> 8 & 0xff) as u8,
        value: (bytes >> 16 & 0xffff) as u16,
        index: (bytes >> 32 & 0xffff) as u16,
        length: (bytes >> 48) as u16,
        interrupt_on_completion: bit(numbers.flags, INTERRUPT_ON_COMPLETION),
    }
}

// The Data Stage TRB that these numbers are.
pub fn data_stage(numbers: TrbNumbers) -> DataStageTrb
    ensures { result ≡ data_stage_of numbers.flags numbers.value numbers.transfer_length }
{
    DataStageTrb {
        data_pointer: numbers.value,
        transfer_length: numbers.transfer_length,
        chain: bit(numbers.flags, CHAIN),
        interrupt_on_completion: bit(numbers.flags, INTERRUPT_ON_COMPLETION),
        interrupt_on_short: bit(numbers.flags, INTERRUPT_ON_SHORT),
        immediate_data: bit(numbers.flags, IMMEDIATE_DATA),
        direction: bit(numbers.flags, DIRECTION),
    }
}

// The Event Data TRB that these numbers are.
pub fn event_data(numbers: TrbNumbers) -> EventDataTrb
    ensures { result ≡ event_data_of numbers.flags numbers.value }
{
    EventDataTrb {
        event_data: numbers.value,
        chain: bit(numbers.flags, CHAIN),
        interrupt_on_completion: bit(numbers.flags, INTERRUPT_ON_COMPLETION),
    }
}

// The No Op TRB that these flags are.
pub fn no_op(flags: u8) -> NoOpTrb
    ensures { result ≡ no_op_of flags }
{
    NoOpTrb {
        chain: bit(flags, CHAIN),
        interrupt_on_completion: bit(flags, INTERRUPT_ON_COMPLETION),
    }
}

#[tactic(auto, unfolding(crate::specs::Numbers::variant_of))]
fn variant(numbers: TrbNumbers) -> TransferTrbVariant
    ensures { result ≡ variant_of numbers.kind numbers.flags numbers.value numbers.transfer_length }
{
    match numbers.kind {
        raw_trb::NORMAL => TransferTrbVariant::Normal(normal(numbers)),
        raw_trb::SETUP_STAGE => TransferTrbVariant::SetupStage(setup_stage(numbers)),
        raw_trb::DATA_STAGE => TransferTrbVariant::DataStage(data_stage(numbers)),
        raw_trb::STATUS_STAGE => TransferTrbVariant::StatusStage(StatusStageTrb {
            chain: bit(numbers.flags, CHAIN),
            interrupt_on_completion: bit(numbers.flags, INTERRUPT_ON_COMPLETION),
            direction: bit(numbers.flags, DIRECTION),
        }),
        raw_trb::ISOCH => TransferTrbVariant::Isoch,
        raw_trb::EVENT_DATA => TransferTrbVariant::EventData(event_data(numbers)),
        raw_trb::NO_OP => TransferTrbVariant::NoOp(no_op(numbers.flags)),
        _ => TransferTrbVariant::Unrecognized,
    }
}

// The TRB that the numbers are.
pub fn trb_of(numbers: TrbNumbers) -> TransferTrb
    ensures { result ≡ trb_of numbers }
{
    TransferTrb {
        variant: variant(numbers),
        addr: numbers.addr,
        cycle_bit: bit(numbers.flags, CYCLE),
    }
}

// ---- To numbers

// The flags of a TRB, each by its name.
#[derive(Clone, Copy)]
struct Flags {
    cycle: bool,
    chain: bool,
    interrupt_on_completion: bool,
    interrupt_on_short: bool,
    immediate_data: bool,
    direction: bool,
}

fn flags_of(flags: Flags) -> u8
    ensures { result ≡ flags_of flags.cycle flags.chain flags.interrupt_on_completion flags.interrupt_on_short flags.immediate_data flags.direction }
{
    flags.cycle as u8
        | (flags.chain as u8) << 1
        | (flags.interrupt_on_completion as u8) << 2
        | (flags.interrupt_on_short as u8) << 3
        | (flags.immediate_data as u8) << 4
        | (flags.direction as u8) << 5
}

fn setup_value(t: SetupStageTrb) -> u64
    ensures { (result ≡ setup_value t) × SetupFits (SetupStage t) }
{
    t.request_type as u64
        | (t.request as u64) << 8
        | (t.value as u64) << 16
        | (t.index as u64) << 32
        | (t.length as u64) << 48
}

// The numbers of a TRB.
pub fn numbers_of(t: TransferTrb) -> TrbNumbers
    ensures { (result ≡ numbers_of t) × (trb_of result ≡ t) }
{
    let off = Flags {
        cycle: t.cycle_bit,
        chain: false,
        interrupt_on_completion: false,
        interrupt_on_short: false,
        immediate_data: false,
        direction: false,
    };
    let bare = TrbNumbers {
        kind: 0,
        flags: flags_of(off),
        addr: t.addr,
        value: 0,
        transfer_length: 0,
    };
    match t.variant {
        TransferTrbVariant::SetupStage(setup) => TrbNumbers {
            kind: raw_trb::SETUP_STAGE,
            flags: flags_of(Flags {
                interrupt_on_completion: setup.interrupt_on_completion,
                ..off
            }),
            value: setup_value(setup),
            ..bare
        },
        TransferTrbVariant::DataStage(data) => TrbNumbers {
            kind: raw_trb::DATA_STAGE,
            flags: flags_of(Flags {
                chain: data.chain,
                interrupt_on_completion: data.interrupt_on_completion,
                interrupt_on_short: data.interrupt_on_short,
                immediate_data: data.immediate_data,
                direction: data.direction,
                ..off
            }),
            value: data.data_pointer,
            transfer_length: data.transfer_length,
            ..bare
        },
        TransferTrbVariant::StatusStage(status) => TrbNumbers {
            kind: raw_trb::STATUS_STAGE,
            flags: flags_of(Flags {
                chain: status.chain,
                interrupt_on_completion: status.interrupt_on_completion,
                direction: status.direction,
                ..off
            }),
            ..bare
        },
        TransferTrbVariant::Normal(normal) => TrbNumbers {
            kind: raw_trb::NORMAL,
            flags: flags_of(Flags {
                chain: normal.chain,
                interrupt_on_completion: normal.interrupt_on_completion,
                interrupt_on_short: normal.interrupt_on_short,
                immediate_data: normal.immediate_data,
                ..off
            }),
            value: normal.data_pointer,
            transfer_length: normal.transfer_length,
            ..bare
        },
        TransferTrbVariant::EventData(event) => TrbNumbers {
            kind: raw_trb::EVENT_DATA,
            flags: flags_of(Flags {
                chain: event.chain,
                interrupt_on_completion: event.interrupt_on_completion,
                ..off
            }),
            value: event.event_data,
            ..bare
        },
        TransferTrbVariant::NoOp(no_op) => TrbNumbers {
            kind: raw_trb::NO_OP,
            flags: flags_of(Flags {
                chain: no_op.chain,
                interrupt_on_completion: no_op.interrupt_on_completion,
                ..off
            }),
            ..bare
        },
        TransferTrbVariant::Isoch => TrbNumbers {
            kind: raw_trb::ISOCH,
            ..bare
        },
        TransferTrbVariant::Unrecognized => bare,
    }
}

// ---- Places

// The numbers in the place that starts at `at`: of its transfer length 17 bits count.
pub fn numbers_at(block: &[u8], at: usize) -> TrbNumbers
    requires { at + place_length ≤ length block.now }
    ensures { result ≡ numbers_at (drop at block.now) }
{
    TrbNumbers {
        kind: block[at + KIND_AT],
        flags: block[at + FLAGS_AT],
        addr: buffers::le64(block, at),
        value: buffers::le64(block, at + VALUE_AT),
        transfer_length: buffers::le32(block, at + LENGTH_AT) & trb::MAX_TRANSFER_LENGTH,
    }
}

fn encoded(numbers: TrbNumbers) -> [u8; PLACE]
    ensures { result ≡ place_bytes numbers }
{
    let mut cells = [0; PLACE];
    cells[..VALUE_AT].copy_from_slice(&numbers.addr.to_le_bytes());
    cells[VALUE_AT..LENGTH_AT].copy_from_slice(&numbers.value.to_le_bytes());
    cells[LENGTH_AT..KIND_AT].copy_from_slice(&numbers.transfer_length.to_le_bytes());
    cells[KIND_AT] = numbers.kind;
    cells[FLAGS_AT] = numbers.flags;
    cells
}

// Stores the numbers in the place that starts at `at`.
pub fn put_place(block: &mut [u8], at: usize, numbers: TrbNumbers)
    requires { at + place_length ≤ length block.old }
    ensures { block.new ≡ patch block.old at (place_bytes numbers) }
{
    buffers::copy_into(block, at, &encoded(numbers));
}

// The `count` bytes from index `at` on become zero: blank places, where they are places.
#[tactic(auto, unfolding(buffers::specs::Patch::patch))]
pub fn blank_bytes(block: &mut [u8], at: usize, count: usize)
    requires { at + count ≤ length block.old }
    ensures { block.new ≡ patch block.old at (replicate count 0) }
{
    block[at..at + count].fill(0);
}
