// Completes rows of TDs and carries them out in one call, on guest memory in two regions of 8 bytes, all dots at first, with the joined
// device bytes a, b, c and so on. A line has a case's name, the answer with the number of records and of TDs finished well, and the bytes
// of both regions afterwards.
#![tactic(auto)]

use guest_memory::GuestMemory;
use in_block::InBlock;
use in_row::TdsCompleted;
use in_td::InMode;
use row_walk::TdResult;
use std::io;
use trb::{
    EndpointId, InTrbProcessingStatus, NoOpTrb, NormalTrb, SlotId, TdBasedNormalSubmissionState,
    TransferTrb, TransferTrbVariant,
};

const LOW: u64 = 0x8000;

const HIGH: u64 = 0x1_0000_0000;

const SHORT_LOG: usize = trb::MIN_ROW_LOG - 1;

const TOO_LONG: u32 = trb::MAX_TRANSFER_LENGTH + 1;

// A row of four TRBs, its TDs, and what the device gave for each.
#[derive(Clone, Copy)]
struct Row {
    trbs: [TransferTrb; 4],
    results: [TdResult; 3],
    tds: usize,
}

fn print_answer(rt: &impl Print, done: TdsCompleted) -> io::Result<()> {
    match done.answer {
        Ok(_) => print!(rt;
            "accepted, {} records, {} finished ",
            done.records, done.finished
        ),
        Err(refusal) => print!(rt; "refused {} ", u8::from(refusal)),
    }
}

// A row on this block, with the joined bytes `data` and this log, guest memory in two regions at these bases.
fn case_with_log(
    rt: &impl Print,
    name: &[u8],
    log: &mut [u8],
    block: InBlock,
    row: Row,
    data: &[u8],
    high_base: u64,
) -> io::Result<()> {
    let mut low = [b'.'; 8];
    let mut high = [b'.'; 8];
    let mut trbs = [held::blank(); trb::MAX_ROW];
    let nothing = TdResult {
        status: InTrbProcessingStatus::Success,
        length: 0,
    };
    let mut results = [nothing; trb::MAX_ROW];
    trbs[..row.trbs.len()].copy_from_slice(&row.trbs);
    results[..row.results.len()].copy_from_slice(&row.results);
    let mut memory = GuestMemory {
        low_base: LOW,
        low: &mut low,
        high_base,
        high: &mut high,
    };
    let done = row_delivery::complete_tds_and_carry_out(
        log,
        block,
        trbs,
        row.trbs.len(),
        results,
        row.tds,
        data,
        &mut memory,
    );
    rt.write_all(name)?;
    rt.write_all(b": ")?;
    print_answer(rt, done)?;
    // Three lines as in the other programs of tests: a crate of its own for them would be longer.
    rt.write_all(&low)?;
    rt.write_all(b" ")?;
    rt.write_all(&high)?;
    rt.write_all(b"\n")
}

fn case(
    rt: &impl Print,
    name: &[u8],
    block: InBlock,
    row: Row,
    data: &[u8],
    high_base: u64,
) -> io::Result<()> {
    let mut log = [0u8; trb::MIN_ROW_LOG];
    case_with_log(rt, name, &mut log, block, row, data, high_base)
}

// A Normal with interrupt-on-short.
fn normal(addr: u64, pointer: u64, length: u32, last: bool, immediate: bool) -> TransferTrb {
    TransferTrb {
        variant: TransferTrbVariant::Normal(NormalTrb {
            data_pointer: pointer,
            transfer_length: length,
            interrupt_on_short: true,
            chain: !last,
            interrupt_on_completion: last,
            immediate_data: immediate,
        }),
        addr,
        cycle_bit: true,
    }
}

fn no_op(addr: u64) -> TransferTrb {
    TransferTrb {
        variant: TransferTrbVariant::NoOp(NoOpTrb {
            interrupt_on_completion: true,
            chain: false,
        }),
        addr,
        cycle_bit: true,
    }
}

fn gave(status: InTrbProcessingStatus, length: u32) -> TdResult {
    TdResult { status, length }
}

// Two TDs: Normals of 2 and 2 bytes, and of 3 and 1. The third pointer is given.
fn frames(third: u64, first: TdResult, second: TdResult) -> Row {
    Row {
        trbs: [
            normal(0x1000, 0x8001, 2, false, false),
            normal(0x1010, HIGH, 2, true, false),
            normal(0x1020, third, 3, false, false),
            normal(0x1030, 0x1_0000_0004, 1, true, false),
        ],
        results: [first, second, gave(InTrbProcessingStatus::Success, 0)],
        tds: 2,
    }
}

fn fresh(mode: InMode) -> InBlock {
    in_block::fresh(EndpointId(3), SlotId(2), mode)
}

// A block whose completion is due.
fn awaiting() -> InBlock {
    InBlock {
        state: TdBasedNormalSubmissionState::AwaitingLocalCompletion,
        ..fresh(InMode::AsPorted)
    }
}

fn given(rt: &impl Print, name: &[u8], mode: InMode, row: Row, data: &[u8]) -> io::Result<()> {
    case(rt, name, fresh(mode), row, data, HIGH)
}

fn rows(rt: &impl Print) -> io::Result<()> {
    let success = InTrbProcessingStatus::Success;
    let stall = InTrbProcessingStatus::Stall;
    given(
        rt,
        b"four bytes and four",
        InMode::AsPorted,
        frames(0x8003, gave(success, 4), gave(success, 4)),
        b"abcdefgh",
    )?;
    given(
        rt,
        b"three bytes and two",
        InMode::AsPorted,
        frames(0x8003, gave(success, 3), gave(success, 2)),
        b"abcde",
    )?;
    given(
        rt,
        b"more than were asked for, and four",
        InMode::AsPorted,
        frames(0x8003, gave(success, 6), gave(success, 4)),
        b"abcdefghij",
    )?;
    given(
        rt,
        b"none and four",
        InMode::AsPorted,
        frames(0x8003, gave(success, 0), gave(success, 4)),
        b"abcd",
    )?;
    given(
        rt,
        b"a stall behind three, the second not started",
        InMode::AsPorted,
        frames(0x8003, gave(stall, 3), gave(success, 4)),
        b"abcdefg",
    )?;
    given(
        rt,
        b"a stall behind all four",
        InMode::AsPorted,
        frames(0x8003, gave(stall, 4), gave(success, 4)),
        b"abcdefgh",
    )?;
    given(
        rt,
        b"a stall behind all four, strict",
        InMode::Strict,
        frames(0x8003, gave(stall, 4), gave(success, 4)),
        b"abcdefgh",
    )?;
    given(
        rt,
        b"an address named twice",
        InMode::AsPorted,
        frames(0x8002, gave(success, 4), gave(success, 4)),
        b"abcdefgh",
    )?;
    let local = Row {
        trbs: [
            normal(0x1000, 0x8001, 2, true, false),
            no_op(0x1010),
            normal(0x1020, 0x8003, 3, false, false),
            normal(0x1030, 0x1_0000_0004, 1, true, false),
        ],
        results: [gave(success, 2), gave(success, 0), gave(success, 4)],
        tds: 3,
    };
    given(rt, b"a NoOp between", InMode::AsPorted, local, b"abcdef")
}

fn questions(rt: &impl Print) -> io::Result<()> {
    let success = InTrbProcessingStatus::Success;
    let right = frames(0x8003, gave(success, 4), gave(success, 4));
    let outside = frames(0x8006, gave(success, 4), gave(success, 0));
    let unsound = in_block::fresh(EndpointId(0), SlotId(0), InMode::AsPorted);
    let waiting = awaiting();
    let block = fresh(InMode::AsPorted);
    let mut short = [0u8; SHORT_LOG];
    case_with_log(
        rt,
        b"a log one byte short",
        &mut short,
        unsound,
        right,
        b"abcdefgh",
        0x8007,
    )?;
    case(
        rt,
        b"regions that share an address",
        unsound,
        right,
        b"abcdefgh",
        0x8007,
    )?;
    case(rt, b"an unsound block", unsound, right, b"abcdefg", HIGH)?;
    case(rt, b"out of turn", waiting, right, b"abcdefg", HIGH)?;
    case(rt, b"a byte of data too few", block, outside, b"abc", HIGH)?;
    let long = Row {
        trbs: [
            normal(0x1000, 0x8001, 2, true, false),
            normal(0x1010, 0x8003, TOO_LONG, true, false),
            normal(0x1020, 0x8003, 3, false, true),
            normal(0x1030, 0x8006, 9, true, false),
        ],
        results: [gave(success, 2), gave(success, 0), gave(success, 0)],
        tds: 3,
    };
    case(rt, b"a Normal over length", block, long, b"ab", HIGH)?;
    let immediate = Row {
        trbs: [
            normal(0x1000, 0x8001, 2, true, false),
            normal(0x1010, 0x8003, 1, true, false),
            normal(0x1020, 0x8003, 3, false, true),
            normal(0x1030, 0x8006, 9, true, false),
        ],
        results: [gave(success, 2), gave(success, 0), gave(success, 0)],
        tds: 3,
    };
    case(rt, b"immediate data", block, immediate, b"ab", HIGH)?;
    case(
        rt,
        b"a Normal outside, not reached",
        block,
        outside,
        b"abcd",
        HIGH,
    )
}

fn main(rt: HostRuntime) -> io::Result<()> {
    rows(&rt)?;
    questions(&rt)
}
