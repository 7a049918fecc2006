// A decoded TRB as a script writes it: KIND ADDR FLAGS A B.
#![tactic(auto)]

ghost use Rattle.std.specs.Prelude.{◌≡◌, ◌<◌, ◌≤◌, ◌^◌};
ghost use Rattle.std.specs.Bool.{OnTrue};
ghost use Rattle.script_trb.specs.Trbs.{allows, has_only_flags, has_only, has_only_its_own, trb_of};

use held_bytes::{
    CHAIN, CYCLE, DIRECTION, IMMEDIATE_DATA, INTERRUPT_ON_COMPLETION, INTERRUPT_ON_SHORT,
    TrbNumbers,
};
use trb::TransferTrb;

// The fields of a TRB.
#[derive(Clone, Copy)]
pub struct TrbFields {
    pub kind: u64,
    pub addr: u64,
    pub flags: u64,
    pub a: u64,
    pub b: u64,
}

// ---- What each kind has of the flags

const ALL_FLAGS: u8 = CYCLE
    | CHAIN
    | INTERRUPT_ON_COMPLETION
    | INTERRUPT_ON_SHORT
    | IMMEDIATE_DATA
    | DIRECTION;

const NORMAL_FLAGS: u8 = CYCLE
    | CHAIN
    | INTERRUPT_ON_COMPLETION
    | INTERRUPT_ON_SHORT
    | IMMEDIATE_DATA;

const SETUP_STAGE_FLAGS: u8 = CYCLE | INTERRUPT_ON_COMPLETION;

const STATUS_STAGE_FLAGS: u8 = CYCLE | CHAIN | INTERRUPT_ON_COMPLETION | DIRECTION;

const CHAINED_FLAGS: u8 = CYCLE | CHAIN | INTERRUPT_ON_COMPLETION;

// The kind of a script's TRB that is of none of xHCI's transfer types.
const UNRECOGNIZED: u8 = 0;

// B is at most this where the kind has it.
pub const MAX_LENGTH: u64 = 0xffff_ffff;

// Is the flag one that the kind has, if it is set?
fn allows(flags: u8, kind_has: u8, flag: u8) -> bool
    requires { 0 < flag }
    ensures { result ≡ allows flags kind_has flag }
{
    !held_bytes::bit(flags, flag) || held_bytes::bit(kind_has, flag)
}

#[tactic(auto, unfolding(crate::specs::Trbs::has_only_flags))]
fn has_only_flags(flags: u64, kind_has: u8) -> bool
    ensures answer { result ≡ has_only_flags flags kind_has }
    ensures fits { OnTrue result (flags ≤ 63) }
{
    if (ALL_FLAGS as u64) < flags {
        return false;
    }
    let flags = flags as u8;
    allows(flags, kind_has, CYCLE)
        && allows(flags, kind_has, CHAIN)
        && allows(flags, kind_has, INTERRUPT_ON_COMPLETION)
        && allows(flags, kind_has, INTERRUPT_ON_SHORT)
        && allows(flags, kind_has, IMMEDIATE_DATA)
        && allows(flags, kind_has, DIRECTION)
}

// Does the TRB have none but these flags, and nothing that is over its limit? What the kind has no field for has limit 0.
#[tactic(auto, unfolding(crate::specs::Trbs::has_only))]
fn has_only(fields: TrbFields, kind_has: u8, max_a: u64, max_b: u64) -> bool
    ensures answer { result ≡ has_only fields kind_has max_a max_b }
    ensures fits { OnTrue result ((fields.flags ≤ 63) × (fields.b ≤ max_b)) }
{
    has_only_flags(fields.flags, kind_has) && fields.a <= max_a && fields.b <= max_b
}

// Does the TRB have nothing but what its kind has? Isoch and Unrecognized have the cycle bit alone.
#[tactic(auto, unfolding(crate::specs::Trbs::has_only_its_own, crate::specs::Tables::row_of))]
fn has_only_its_own(fields: TrbFields) -> bool
    ensures answer { result ≡ has_only_its_own fields }
    ensures fits { OnTrue result ((fields.kind ≤ 8) × (fields.flags ≤ 63) × (fields.b < 2 ^ 32)) }
{
    match u8::try_from(fields.kind) {
        Ok(UNRECOGNIZED | raw_trb::ISOCH) => has_only(fields, CYCLE, 0, 0),
        Ok(raw_trb::NORMAL) => has_only(fields, NORMAL_FLAGS, u64::MAX, MAX_LENGTH),
        Ok(raw_trb::SETUP_STAGE) => has_only(fields, SETUP_STAGE_FLAGS, u64::MAX, 0),
        Ok(raw_trb::DATA_STAGE) => has_only(fields, ALL_FLAGS, u64::MAX, MAX_LENGTH),
        Ok(raw_trb::STATUS_STAGE) => has_only(fields, STATUS_STAGE_FLAGS, 0, 0),
        Ok(raw_trb::EVENT_DATA) => has_only(fields, CHAINED_FLAGS, u64::MAX, 0),
        Ok(raw_trb::NO_OP) => has_only(fields, CHAINED_FLAGS, 0, 0),
        _ => false,
    }
}

// The TRB of these fields.
#[tactic(auto, unfolding(crate::specs::Trbs::trb_of))]
pub fn script_trb(fields: TrbFields) -> Option<TransferTrb>
    ensures { result ≡ trb_of fields }
{
    if !has_only_its_own(fields) {
        return None;
    }
    Some(held_bytes::trb_of(TrbNumbers {
        kind: fields.kind as u8,
        flags: fields.flags as u8,
        addr: fields.addr,
        value: fields.a,
        transfer_length: fields.b as u32,
    }))
}
