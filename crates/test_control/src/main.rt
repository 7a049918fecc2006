// Rows of TRBs on a control endpoint, number 3 of slot 2, with guest memory of 131,072 bytes at address 0. Each TRB is submitted and
// completed; where the endpoint then awaits the device, that sends 18 bytes. A line has the TRB's address and the answer, or the
// result of the completion; the records that the call logged stand below it: kind, code, address, length, start, request type.
#![tactic(auto)]

use call_log::Record;
use control_block::{ControlBlock, GuestRelease};
use guest_memory::GuestView;
use std::io;
use trb::{
    Answer, CompletionAnswer, ControlRequestProcessingResult, ControlSubmissionState, DataStageTrb,
    EndpointId, NormalTrb, Refusal, SetupStageTrb, SlotId, StatusStageTrb, TransferTrb,
    TransferTrbVariant, TrbProcessingResult,
};

// Request types: bit 7 gives IN.
const IN: u8 = 0x80;

const OUT: u8 = 0;

// ---- TRBs

fn at(addr: u64, variant: TransferTrbVariant) -> TransferTrb {
    TransferTrb {
        variant,
        addr,
        cycle_bit: true,
    }
}

fn setup(addr: u64, request_type: u8, interrupt_on_completion: bool) -> TransferTrb {
    at(
        addr,
        TransferTrbVariant::SetupStage(SetupStageTrb {
            request_type,
            request: 6,
            value: 0x100,
            index: 0,
            length: 64,
            interrupt_on_completion,
        }),
    )
}

fn data_stage(addr: u64, length: u32, chain: bool) -> TransferTrb {
    at(
        addr,
        TransferTrbVariant::DataStage(DataStageTrb {
            data_pointer: 0,
            transfer_length: length,
            chain,
            interrupt_on_completion: false,
            interrupt_on_short: false,
            immediate_data: false,
            direction: true,
        }),
    )
}

fn normal(addr: u64, length: u32, chain: bool) -> TransferTrb {
    at(
        addr,
        TransferTrbVariant::Normal(NormalTrb {
            data_pointer: 0,
            transfer_length: length,
            interrupt_on_short: false,
            chain,
            interrupt_on_completion: false,
            immediate_data: false,
        }),
    )
}

fn status(addr: u64) -> TransferTrb {
    at(
        addr,
        TransferTrbVariant::StatusStage(StatusStageTrb {
            chain: false,
            interrupt_on_completion: true,
            direction: false,
        }),
    )
}

fn unrecognized(addr: u64) -> TransferTrb {
    at(addr, TransferTrbVariant::Unrecognized)
}

// ---- Printing

fn print_refusal(rt: &impl Print, refusal: Refusal) -> io::Result<()> {
    print!(rt; "refused {}", u8::from(refusal))
}

fn print_answer(rt: &impl Print, addr: u64, answer: Answer) -> io::Result<()> {
    print!(rt; "TRB {addr}: ")?;
    match answer {
        Ok(()) => rt.write_all(b"accepted")?,
        Err(refusal) => print_refusal(rt, refusal)?,
    }
    rt.write_all(b"\n")
}

fn print_result(rt: &impl Print, res: TrbProcessingResult) -> io::Result<()> {
    match res {
        TrbProcessingResult::Ok => rt.write_all(b"Ok"),
        TrbProcessingResult::Stall => rt.write_all(b"Stall"),
        TrbProcessingResult::StallAt(_, _) => rt.write_all(b"Stall at an address"),
        TrbProcessingResult::TrbError => rt.write_all(b"TrbError"),
        TrbProcessingResult::TransactionError => rt.write_all(b"TransactionError"),
        TrbProcessingResult::TransactionErrorAt(_, _) => {
            rt.write_all(b"TransactionError at an address")
        }
        TrbProcessingResult::Disconnect => rt.write_all(b"Disconnect"),
    }
}

fn print_completion(rt: &impl Print, answer: CompletionAnswer) -> io::Result<()> {
    rt.write_all(b"  completed: ")?;
    match answer {
        Ok(result) => print_result(rt, result)?,
        Err(refusal) => print_refusal(rt, refusal)?,
    }
    rt.write_all(b"\n")
}

fn print_record(rt: &impl Print, record: Record) -> io::Result<()> {
    println!(rt;
        "    {} {} {} {} {} {}",
        record.kind, record.code, record.address, record.length, record.start, record.request_type
    )
}

// Prints the first `count` records of a log.
fn print_records(rt: &impl Print, log: &[u8], count: usize) -> io::Result<()> {
    for cells in call_log::records(log).iter().take(count) {
        print_record(rt, call_log::decoded(cells))?;
    }
    Ok(())
}

// ---- Calls

// What the device answers, where the endpoint awaits it.
fn device_result(state: ControlSubmissionState) -> Option<ControlRequestProcessingResult> {
    match state {
        ControlSubmissionState::AwaitingControlRequest => {
            Some(ControlRequestProcessingResult::SuccessfulControlIn)
        }
        _ => None,
    }
}

// Bytes of the collect buffer that is lent.
const COLLECT: usize = 65536;

// Completes, and prints what comes of it.
fn complete(rt: &impl Print, block: ControlBlock) -> io::Result<ControlBlock> {
    let mut log = [0u8; trb::MIN_LOG];
    let device = [7u8; 18];
    let result = device_result(block.state);
    let completed = control_completion::next_completion(&mut log, block, result, &device);
    print_completion(rt, completed.answer)?;
    print_records(rt, &log, completed.records)?;
    Ok(completed.block)
}

// Guest memory of one region, the bytes of `window` from address 0 on.
fn memory_in(window: &[u8]) -> GuestView<'_> {
    GuestView {
        low_base: 0,
        low: window,
        high_base: 0,
        high: b"",
    }
}

// Submits a TRB, and prints what comes of it.
fn submit(
    rt: &impl Print,
    window: &[u8],
    block: ControlBlock,
    t: TransferTrb,
) -> io::Result<ControlBlock> {
    let mut log = [0u8; trb::MIN_LOG];
    let mut collect = [0u8; COLLECT];
    let memory = memory_in(window);
    let submitted = control_submission::submit_trb(&mut log, &mut collect, block, t, &memory);
    print_answer(rt, t.addr, submitted.answer)?;
    print_records(rt, &log, submitted.records)?;
    Ok(submitted.block)
}

// Submits and completes the TRBs of a row.
fn run(
    rt: &impl Print,
    window: &[u8],
    block: ControlBlock,
    trbs: &[TransferTrb],
) -> io::Result<()> {
    let mut next = block;
    for t in trbs {
        next = complete(rt, submit(rt, window, next, *t)?)?;
    }
    Ok(())
}

// Submits and completes a TRB, and prints nothing.
fn pass(window: &[u8], block: ControlBlock, t: TransferTrb) -> ControlBlock {
    let mut log = [0u8; trb::MIN_LOG];
    let mut collect = [0u8; COLLECT];
    let memory = memory_in(window);
    let submitted = control_submission::submit_trb(&mut log, &mut collect, block, t, &memory);
    control_completion::next_completion(&mut log, submitted.block, None, b"").block
}

// The same for so many equal TRBs.
fn pass_often(window: &[u8], block: ControlBlock, t: TransferTrb, count: usize) -> ControlBlock {
    let mut next = block;
    for _ in 0..count {
        next = pass(window, next, t);
    }
    next
}

// ---- Rows

// Setup, Data IN 18 unchained, Unrecognized, Status: request of 18; 18 bytes back write nothing.
fn unrecognized_in_a_chain() -> [TransferTrb; 4] {
    [
        setup(4096, IN, false),
        data_stage(4112, 18, false),
        unrecognized(4128),
        status(4144),
    ]
}

// 65,535 bytes may be collected; one more is refused.
fn collected_limit() -> [TransferTrb; 5] {
    [
        setup(4096, OUT, false),
        data_stage(4112, 65536, true),
        data_stage(4128, 65535, true),
        normal(4144, 1, true),
        normal(4160, 0, true),
    ]
}

// The 512th TRB may be held, the 513th is refused; a Setup is then the only one held.
fn held_limit() -> [TransferTrb; 5] {
    [
        normal(8192, 0, true),
        normal(8208, 0, true),
        setup(8224, IN, true),
        setup(8240, IN, false),
        status(8256),
    ]
}

// An Unrecognized TRB frees the places and keeps the length; the request follows.
fn after_unrecognized() -> [TransferTrb; 3] {
    [unrecognized(8192), normal(8208, 0, false), status(8224)]
}

fn fresh() -> ControlBlock {
    control_endpoint::create(EndpointId(3), SlotId(2), GuestRelease::Release4).block
}

// A Setup and a chained Data stage of this length.
fn started(window: &[u8], length: u32) -> ControlBlock {
    let block = pass(window, fresh(), setup(4096, IN, false));
    pass(window, block, data_stage(4112, length, true))
}

// So many rounds of an Unrecognized TRB and as many Normals of 131,071 bytes as can be held.
fn lengthened(window: &[u8], block: ControlBlock, rounds: usize) -> ControlBlock {
    let mut next = block;
    for _ in 0..rounds {
        let cleared = pass(window, next, unrecognized(4128));
        next = pass_often(window, cleared, normal(4144, 131071, true), trb::MAX_HELD);
    }
    next
}

fn run_rows(rt: &impl Print, window: &[u8]) -> io::Result<()> {
    rt.write_all(b"An Unrecognized TRB before the status stage\n")?;
    run(rt, window, fresh(), &unrecognized_in_a_chain())?;
    rt.write_all(b"65,536 bytes, 65,535, one more, none more\n")?;
    run(rt, window, fresh(), &collected_limit())?;
    rt.write_all(b"The 512th held TRB, the 513th, and Setup\n")?;
    let full = pass_often(
        window,
        started(window, 0),
        normal(4128, 0, true),
        trb::MAX_HELD - 3,
    );
    run(rt, window, full, &held_limit())?;
    // 32,769 TRBs of 131,071 bytes ask for 4,295,065,599 bytes, which is 98,303 modulo 2^32.
    rt.write_all(b"A request length past 2^32\n")?;
    let long = lengthened(window, started(window, 131071), 64);
    run(rt, window, long, &after_unrecognized())
}

fn main(rt: HostRuntime) -> io::Result<()> {
    let memory = [0u8; 131072];
    run_rows(&rt, &memory)
}
