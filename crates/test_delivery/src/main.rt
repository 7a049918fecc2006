// Completes TDs and carries them out in one call, on guest memory in two regions of 8 bytes, all dots, with the device bytes a, b, c and so
// on. A line has a case's name, the answer with the number of records, and the bytes of both regions afterwards.
#![tactic(auto)]

use guest_memory::GuestMemory;
use in_block::InBlock;
use in_endpoint::Completed;
use in_td::InMode;
use std::io;
use trb::{
    EndpointId, InTrbProcessingStatus, NormalTrb, SlotId, TdBasedNormalSubmissionState,
    TransferTrb, TransferTrbVariant,
};

const LOW: u64 = 0x8000;

const HIGH: u64 = 0x1_0000_0000;

const SHORT_LOG: usize = trb::MIN_LOG - 1;

fn print_answer(rt: &impl Print, done: Completed) -> io::Result<()> {
    match done.answer {
        Ok(_) => print!(rt; "accepted, {} records ", done.records),
        Err(refusal) => print!(rt; "refused {} ", u8::from(refusal)),
    }
}

// A completion of this block with the device's bytes `data` and this log, guest memory in two regions at these bases.
fn case_with_log(
    rt: &impl Print,
    name: &[u8],
    log: &mut [u8],
    block: InBlock,
    res: Option<InTrbProcessingStatus>,
    data: &[u8],
    low_base: u64,
    high_base: u64,
) -> io::Result<()> {
    let mut low = [b'.'; 8];
    let mut high = [b'.'; 8];
    let mut memory = GuestMemory {
        low_base,
        low: &mut low,
        high_base,
        high: &mut high,
    };
    let done = delivery::complete_and_carry_out(log, block, res, data, &mut memory);
    rt.write_all(name)?;
    rt.write_all(b": ")?;
    print_answer(rt, done)?;
    // Three lines as in the other programs of tests: a crate of its own for them would be longer.
    rt.write_all(&low)?;
    rt.write_all(b" ")?;
    rt.write_all(&high)?;
    rt.write_all(b"\n")
}

fn case(
    rt: &impl Print,
    name: &[u8],
    block: InBlock,
    res: Option<InTrbProcessingStatus>,
    data: &[u8],
    low_base: u64,
    high_base: u64,
) -> io::Result<()> {
    let mut log = [0u8; trb::MIN_LOG];
    case_with_log(rt, name, &mut log, block, res, data, low_base, high_base)
}

// A Normal with interrupt-on-short.
fn normal(addr: u64, pointer: u64, length: u32, last: bool) -> TransferTrb {
    TransferTrb {
        variant: TransferTrbVariant::Normal(NormalTrb {
            data_pointer: pointer,
            transfer_length: length,
            interrupt_on_short: true,
            chain: !last,
            interrupt_on_completion: last,
            immediate_data: false,
        }),
        addr,
        cycle_bit: true,
    }
}

// A block that awaits the device and holds three Normals of 4, 4 and 2 bytes.
fn awaiting(mode: InMode, first: u64, second: u64, third: u64) -> InBlock {
    let mut trbs = [held::blank(); trb::MAX_HELD];
    trbs[0] = normal(0x1000, first, 4, false);
    trbs[1] = normal(0x1010, second, 4, false);
    trbs[2] = normal(0x1020, third, 2, true);
    InBlock {
        state: TdBasedNormalSubmissionState::AwaitingRealTransfer,
        held: 3,
        trbs,
        ..in_block::fresh(EndpointId(3), SlotId(2), mode)
    }
}

fn frame(mode: InMode) -> InBlock {
    awaiting(mode, 0x8002, HIGH, 0x1_0000_0005)
}

fn given(
    rt: &impl Print,
    name: &[u8],
    block: InBlock,
    status: InTrbProcessingStatus,
    data: &[u8],
) -> io::Result<()> {
    case(rt, name, block, Some(status), data, LOW, HIGH)
}

fn frames(rt: &impl Print) -> io::Result<()> {
    let ported = frame(InMode::AsPorted);
    let strict = frame(InMode::Strict);
    given(
        rt,
        b"all ten bytes",
        ported,
        InTrbProcessingStatus::Success,
        b"abcdefghij",
    )?;
    given(
        rt,
        b"more than were asked for",
        ported,
        InTrbProcessingStatus::Success,
        b"abcdefghijkl",
    )?;
    given(
        rt,
        b"six of ten",
        ported,
        InTrbProcessingStatus::Success,
        b"abcdef",
    )?;
    given(rt, b"none", ported, InTrbProcessingStatus::Success, b"")?;
    given(
        rt,
        b"a stall behind six",
        ported,
        InTrbProcessingStatus::Stall,
        b"abcdef",
    )?;
    given(
        rt,
        b"a stall behind all ten",
        ported,
        InTrbProcessingStatus::Stall,
        b"abcdefghij",
    )?;
    given(
        rt,
        b"a stall behind all ten, strict",
        strict,
        InTrbProcessingStatus::Stall,
        b"abcdefghij",
    )
}

fn questions(rt: &impl Print) -> io::Result<()> {
    let ported = frame(InMode::AsPorted);
    let success = Some(InTrbProcessingStatus::Success);
    let fresh = in_block::fresh(EndpointId(3), SlotId(2), InMode::AsPorted);
    let unsound = in_block::fresh(EndpointId(0), SlotId(0), InMode::AsPorted);
    let mut short = [0u8; SHORT_LOG];
    case_with_log(
        rt,
        b"a log one byte short",
        &mut short,
        ported,
        success,
        b"abcdef",
        LOW,
        0x8007,
    )?;
    case(
        rt,
        b"regions that share an address",
        unsound,
        success,
        b"abcdef",
        LOW,
        0x8007,
    )?;
    case(
        rt,
        b"an unsound block",
        unsound,
        success,
        b"abcdef",
        LOW,
        HIGH,
    )?;
    case(rt, b"out of turn", fresh, success, b"abcdef", LOW, HIGH)?;
    case(rt, b"no device result", ported, None, b"abcdef", LOW, HIGH)
}

fn ranges(rt: &impl Print) -> io::Result<()> {
    let outside = awaiting(InMode::AsPorted, 0x8002, 0x8008, HIGH);
    let across = awaiting(InMode::AsPorted, 0x8000, 0x8006, 0x800c);
    let beside = awaiting(InMode::AsPorted, 0x8000, 0x8004, 0x8008);
    let twice = awaiting(InMode::AsPorted, 0x8000, 0x8002, HIGH);
    let success = Some(InTrbProcessingStatus::Success);
    given(
        rt,
        b"a Normal outside, reached",
        outside,
        InTrbProcessingStatus::Success,
        b"abcde",
    )?;
    given(
        rt,
        b"a Normal outside, not reached",
        outside,
        InTrbProcessingStatus::Success,
        b"abcd",
    )?;
    case(
        rt,
        b"a Normal across regions that touch",
        across,
        success,
        b"abcdefgh",
        LOW,
        0x8008,
    )?;
    case(
        rt,
        b"up to and from where they touch",
        beside,
        success,
        b"abcdefghij",
        LOW,
        0x8008,
    )?;
    given(
        rt,
        b"an address named twice",
        twice,
        InTrbProcessingStatus::Success,
        b"abcdefghij",
    )
}

fn main(rt: HostRuntime) -> io::Result<()> {
    frames(&rt)?;
    questions(&rt)?;
    ranges(&rt)
}
