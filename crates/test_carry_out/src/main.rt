// Carries out logs on 16 bytes of guest memory, all dots, with the eight device bytes a to h. A line has a log's name, the
// answer and the memory afterwards: the bytes of one region, or of two with a space between them.
#![tactic(auto)]

use call_log::Record;
use guest_memory::GuestMemory;
use std::io;
use trb::{Answer, CompletionCode, EndpointId, SlotId};

// The guest address of the 16 bytes, where a case gives no other.
const BASE: u64 = 0x8000;

fn print_answer(rt: &impl Print, answer: Answer) -> io::Result<()> {
    match answer {
        Ok(()) => rt.write_all(b"accepted "),
        Err(refusal) => print!(rt; "refused {} ", u8::from(refusal)),
    }
}

// A log, carried out with guest memory in one region, at `base`.
fn case(rt: &impl Print, name: &[u8], base: u64, log: &[u8]) -> io::Result<()> {
    let mut low = [b'.'; 16];
    let mut none = [b'.'; 1];
    let mut memory = GuestMemory {
        low_base: base,
        low: &mut low,
        high_base: 0,
        high: &mut none[..0],
    };
    let answer = carry_out::carry_out(log, b"abcdefgh", &mut memory);
    rt.write_all(name)?;
    rt.write_all(b": ")?;
    print_answer(rt, answer)?;
    rt.write_all(&low)?;
    rt.write_all(b"\n")
}

// A log, carried out with guest memory in two regions.
fn case_in_two(
    rt: &impl Print,
    name: &[u8],
    log: &[u8],
    memory: &mut GuestMemory<'_>,
) -> io::Result<()> {
    let answer = carry_out::carry_out(log, b"abcdefgh", memory);
    rt.write_all(name)?;
    rt.write_all(b": ")?;
    print_answer(rt, answer)?;
    rt.write_all(memory.low)?;
    rt.write_all(b" ")?;
    rt.write_all(memory.high)?;
    rt.write_all(b"\n")
}

fn write(address: u64, length: u32, start: u32) -> Record {
    call_log::guest_write(address, length, start, EndpointId(3), SlotId(2))
}

fn event(address: u64, residual: u32) -> Record {
    call_log::transfer_event(
        address,
        residual,
        CompletionCode::Success,
        false,
        EndpointId(3),
        SlotId(2),
    )
}

// A log of one write.
fn one(
    rt: &impl Print,
    name: &[u8],
    base: u64,
    address: u64,
    length: u32,
    start: u32,
) -> io::Result<()> {
    let mut log = [0u8; 32];
    call_log::put_record(&mut log, 0, write(address, length, start));
    case(rt, name, base, &log)
}

// A log of two records.
fn two(rt: &impl Print, name: &[u8], first: Record, second: Record) -> io::Result<()> {
    let mut log = [0u8; 64];
    call_log::put_record(&mut log, 0, first);
    call_log::put_record(&mut log, 1, second);
    case(rt, name, BASE, &log)
}

// A log of a write in range and a second record whose first byte is `kind`.
fn kind(rt: &impl Print, name: &[u8], kind: u8) -> io::Result<()> {
    let mut log = [0u8; 64];
    call_log::put_record(&mut log, 0, write(BASE, 4, 0));
    log[32] = kind;
    case(rt, name, BASE, &log)
}

// A write whose code, flag and zero bytes are not those that the engine logs.
fn free_bytes(rt: &impl Print) -> io::Result<()> {
    let mut log = [255u8; 32];
    let free = Record {
        kind: call_log::KIND_WRITE,
        code: 255,
        flag: 255,
        endpoint_id: EndpointId(0),
        slot_id: SlotId(0),
        address: BASE,
        length: 3,
        start: 5,
        request_type: 255,
        request: 255,
        value: 65535,
        index: 65535,
    };
    call_log::put_record(&mut log, 0, free);
    log[5] = 255;
    log[31] = 255;
    case(rt, b"a write with other bytes set", BASE, &log)
}

fn questions(rt: &impl Print) -> io::Result<()> {
    let none = [0u8; 33];
    case(rt, b"an empty log", BASE, &none[..0])?;
    case(rt, b"33 bytes", BASE, &none)?;
    kind(rt, b"a write, then kind 0", 0)?;
    kind(rt, b"a write, then kind 4", 4)?;
    one(rt, b"a write inside", BASE, 0x8003, 4, 2)?;
    one(rt, b"up to the window's end", BASE, 0x8008, 8, 0)?;
    one(rt, b"one byte past the window", BASE, 0x8009, 8, 0)?;
    one(rt, b"one byte before the window", BASE, 0x7fff, 8, 0)?;
    one(rt, b"up to the data's end", BASE, BASE, 3, 5)?;
    one(rt, b"one byte past the data", BASE, BASE, 4, 5)?;
    one(
        rt,
        b"0 bytes outside the window and the data",
        BASE,
        0xffff_ffff_ffff_ffff,
        0,
        0xffffffff,
    )?;
    one(
        rt,
        b"a start and a length that add up past 32 bits",
        BASE,
        BASE,
        0xffffffff,
        0xffffffff,
    )
}

fn order(rt: &impl Print) -> io::Result<()> {
    two(
        rt,
        b"a write over another",
        write(BASE, 4, 0),
        write(0x8002, 4, 4),
    )?;
    two(
        rt,
        b"the same two, the other way round",
        write(0x8002, 4, 4),
        write(BASE, 4, 0),
    )?;
    two(
        rt,
        b"a write inside, then one outside",
        write(BASE, 4, 0),
        write(0x8010, 1, 0),
    )?;
    two(
        rt,
        b"an event outside the window, then a write",
        event(0xffff_ffff_ffff_ffff, 0xffffffff),
        write(0x8001, 2, 6),
    )?;
    free_bytes(rt)
}

// The region's base is 2^64 - 16, then 2^64 - 8.
fn windows(rt: &impl Print) -> io::Result<()> {
    one(
        rt,
        b"up to 2^64, where the window ends",
        0xffff_ffff_ffff_fff0,
        0xffff_ffff_ffff_fffc,
        4,
        0,
    )?;
    one(
        rt,
        b"one byte past 2^64, where the window ends",
        0xffff_ffff_ffff_fff0,
        0xffff_ffff_ffff_fffc,
        5,
        0,
    )?;
    one(
        rt,
        b"over 2^64, in a window that goes on",
        0xffff_ffff_ffff_fff8,
        0xffff_ffff_ffff_fffc,
        8,
        0,
    )?;
    one(
        rt,
        b"address 0, in a window over 2^64",
        0xffff_ffff_ffff_fff8,
        0,
        4,
        0,
    )
}

// A log, carried out in two regions of 8 bytes.
fn log_in_two(
    rt: &impl Print,
    name: &[u8],
    low_base: u64,
    high_base: u64,
    log: &[u8],
) -> io::Result<()> {
    let mut low = [b'.'; 8];
    let mut high = [b'.'; 8];
    let mut memory = GuestMemory {
        low_base,
        low: &mut low,
        high_base,
        high: &mut high,
    };
    case_in_two(rt, name, log, &mut memory)
}

// A log of one write, likewise.
fn one_in_two(
    rt: &impl Print,
    name: &[u8],
    low_base: u64,
    high_base: u64,
    address: u64,
    length: u32,
) -> io::Result<()> {
    let mut log = [0u8; 32];
    call_log::put_record(&mut log, 0, write(address, length, 0));
    log_in_two(rt, name, low_base, high_base, &log)
}

// An empty log, with the high region empty.
fn high_empty(rt: &impl Print, name: &[u8], low_base: u64, high_base: u64) -> io::Result<()> {
    let mut low = [b'.'; 8];
    let mut high = [b'.'; 1];
    let mut memory = GuestMemory {
        low_base,
        low: &mut low,
        high_base,
        high: &mut high[..0],
    };
    case_in_two(rt, name, b"", &mut memory)
}

// Below and above the 4 GiB hole, and without one.
fn regions(rt: &impl Print) -> io::Result<()> {
    let none = [0u8; 33];
    one_in_two(rt, b"in the low region", BASE, 0x1_0000_0000, 0x8002, 4)?;
    one_in_two(
        rt,
        b"in the high region",
        BASE,
        0x1_0000_0000,
        0x1_0000_0002,
        4,
    )?;
    one_in_two(rt, b"in the hole", BASE, 0x1_0000_0000, 0x8008, 1)?;
    one_in_two(rt, b"across regions that touch", BASE, 0x8008, 0x8006, 4)?;
    one_in_two(rt, b"up to where they touch", BASE, 0x8008, 0x8004, 4)?;
    one_in_two(rt, b"from where they touch", BASE, 0x8008, 0x8008, 4)?;
    one_in_two(rt, b"the other one lower", 0x8008, BASE, 0x8001, 4)?;
    one_in_two(
        rt,
        b"across them, the other one lower",
        0x8008,
        BASE,
        0x8006,
        4,
    )?;
    one_in_two(rt, b"one address shared", BASE, 0x8007, 0x8000, 4)?;
    log_in_two(rt, b"an empty log, one address shared", BASE, 0x8007, b"")?;
    log_in_two(rt, b"33 bytes, one address shared", BASE, 0x8007, &none)?;
    high_empty(rt, b"an empty region inside the other", BASE, 0x8004)?;
    high_empty(rt, b"an empty region at the base of the other", BASE, BASE)
}

fn main(rt: HostRuntime) -> io::Result<()> {
    questions(&rt)?;
    order(&rt)?;
    windows(&rt)?;
    regions(&rt)
}
