// What bench/ times: the product on repeated work, over numbers and lent bytes alone. Each function answers a checksum.
// One call site for each timed function, as a program has that drives an endpoint.
#![tactic(auto)]

use control_block::GuestRelease;
use guest_memory::GuestView;
use in_td::InMode;
use trb::{
    ControlRequestProcessingResult, DataStageTrb, EndpointId, SetupStageTrb, SlotId,
    StatusStageTrb, TransferTrb, TransferTrbVariant,
};

// Guest memory, both of whose regions are the bytes of `window`: a submission that collects nothing reads their lengths alone.
fn memory_in(window: &[u8]) -> GuestView<'_> {
    GuestView {
        low_base: 0,
        low: window,
        high_base: bench_work::HIGH_BASE,
        high: window,
    }
}

// ---- By value

// `repeats` TDs of `trbs` Normals, whose buffers lie end to end from the window's start: each TRB is submitted and its completion asked
// for, the last one's with the device's result; where the TD is not to complete, it is cancelled in the place of its last completion.
#[unsafe(no_mangle)]
pub extern "C" fn bench_calls_in_by_value(
    log: &mut [u8],
    window: &[u8],
    data: &[u8],
    trbs: u32,
    transfer_length: u32,
    status: u8,
    completes: bool,
    repeats: u32,
) -> u64 {
    let memory = memory_in(window);
    let mut block = in_endpoint::create(EndpointId(3), SlotId(2), InMode::AsPorted).block;
    let mut sum = 0u64;
    for _ in 0..repeats {
        let mut pointer = 0u64;
        for i in 0..trbs {
            let ends = i + 1 == trbs;
            let t = bench_work::normal_at(i, pointer, transfer_length, !ends);
            pointer = pointer.wrapping_add(transfer_length as u64);
            let submitted = in_submission::submit_trb(log, block, t, &memory);
            sum = sum.wrapping_add(bench_work::sum_of(submitted.answer, submitted.records));
            block = submitted.block;
            if ends && !completes {
                block = in_endpoint::cancel(block);
            } else {
                let result = bench_work::result_at(ends, status);
                let completed = in_completion::next_completion(log, block, result, data);
                sum = sum.wrapping_add(bench_work::sum_of_completion(
                    completed.answer,
                    completed.records,
                ));
                block = completed.block;
            }
        }
    }
    sum
}

// ---- Control

fn setup_stage() -> TransferTrbVariant {
    TransferTrbVariant::SetupStage(SetupStageTrb {
        request_type: 128,
        request: 6,
        value: 256,
        index: 0,
        length: 64,
        interrupt_on_completion: false,
    })
}

fn data_stage(transfer_length: u32) -> TransferTrbVariant {
    TransferTrbVariant::DataStage(DataStageTrb {
        data_pointer: 0,
        transfer_length,
        chain: false,
        interrupt_on_completion: false,
        interrupt_on_short: true,
        immediate_data: false,
        direction: true,
    })
}

fn status_stage() -> TransferTrbVariant {
    TransferTrbVariant::StatusStage(StatusStageTrb {
        chain: false,
        interrupt_on_completion: true,
        direction: false,
    })
}

// Number `i` of a control transfer: Setup 80 06, Data IN, Status.
fn stage_at(i: u32, transfer_length: u32) -> TransferTrb {
    let variant = match i {
        0 => setup_stage(),
        1 => data_stage(transfer_length),
        _ => status_stage(),
    };
    TransferTrb {
        variant,
        addr: bench_work::FIRST_TRB + bench_work::TRB_BYTES * (i as u64),
        cycle_bit: true,
    }
}

// `repeats` control transfers of three TRBs, each submitted and completed.
#[unsafe(no_mangle)]
pub extern "C" fn bench_calls_control(
    log: &mut [u8],
    collect: &mut [u8],
    window: &[u8],
    data: &[u8],
    transfer_length: u32,
    repeats: u32,
) -> u64 {
    let memory = memory_in(window);
    let mut block = control_endpoint::create(
        EndpointId(1),
        SlotId(2),
        GuestRelease::Release4,
    ).block;
    let mut sum = 0u64;
    for _ in 0..repeats {
        for i in 0..3 {
            let t = stage_at(i, transfer_length);
            let submitted = control_submission::submit_trb(log, collect, block, t, &memory);
            sum = sum.wrapping_add(bench_work::sum_of(submitted.answer, submitted.records));
            let ends = i == 2;
            let result = ends.then_some(ControlRequestProcessingResult::SuccessfulControlIn);
            let completed = control_completion::next_completion(log, submitted.block, result, data);
            sum = sum.wrapping_add(bench_work::sum_of_completion(
                completed.answer,
                completed.records,
            ));
            block = completed.block;
        }
    }
    sum
}
