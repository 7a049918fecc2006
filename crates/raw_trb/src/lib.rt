// Raw transfer TRBs: what the 16 bytes that the ring walker gives say (xHCI 1.2, 6.4.1 and 6.4.4.2). The tables of their fields and what is
// decoded and encoded by them stand in specs/; `raw_trb_decoder` and `raw_trb_encoder` have the code.
#![tactic(auto)]

use trb::TransferTrbVariant;

// ---- TRB types by number (xHCI 1.2, table 6-91): constants and no enum, since a TRB comes with any number as its type, and each TRB would
// be matched a second time to make the enum

pub const NORMAL: u8 = 1;

pub const SETUP_STAGE: u8 = 2;

pub const DATA_STAGE: u8 = 3;

pub const STATUS_STAGE: u8 = 4;

pub const ISOCH: u8 = 5;

pub const EVENT_DATA: u8 = 7;

pub const NO_OP: u8 = 8;

// The four dwords of a TRB.
#[derive(Clone, Copy)]
pub struct Dwords {
    pub d0: u32,
    pub d1: u32,
    pub d2: u32,
    pub d3: u32,
}

// What 16 bytes say.
#[derive(Clone, Copy)]
pub struct DecodedTrb {
    pub variant: TransferTrbVariant,
    pub cycle_bit: bool,
}
