// Prints logs at the edges of question 10 and of the longest log that is printed, each under its name.
#![tactic(auto)]

use std::io;

// Writes a name, and what the log prints, or where that is long only how long it is.
fn show(rt: &impl Print, name: &[u8], log: &[u8]) -> io::Result<()> {
    rt.write_all(name)?;
    let mut text = [0u8; log_text::MAX_TEXT];
    let end = log_print::print_log(log, &mut text).unwrap_or(0);
    if end < 100 {
        rt.write_all(&text[..end])
    } else {
        println!(rt; "{end} characters")
    }
}

// So many bytes of records of kind 1, every byte 1: at most one record more than the longest log that is printed has.
fn show_ones(rt: &impl Print, name: &[u8], count: usize) -> io::Result<()> {
    let log = [1u8; trb::MAX_PRINTED_LOG + trb::RECORD_LENGTH];
    if count <= log.len() {
        show(rt, name, &log[..count])?;
    }
    Ok(())
}

// Two records, the first of kind 0.
fn kind_zero(rt: &impl Print) -> io::Result<()> {
    let mut log = [1u8; 64];
    log[0] = 0;
    show(rt, b"64 bytes, kind 0 in the first record\n", &log)
}

// Two records, the last of kind 4.
fn kind_four(rt: &impl Print) -> io::Result<()> {
    let mut log = [1u8; 64];
    log[32] = 4;
    show(rt, b"64 bytes, kind 4 in the last record\n", &log)
}

// A text buffer with no room for every text.
fn short_buffer(rt: &impl Print) -> io::Result<()> {
    let log = [1u8; 32];
    let mut text = [b'.'; 80];
    match log_print::print_log(&log, &mut text) {
        Ok(_) => {
            rt.print("accepted")?;
        }
        Err(refusal) => {
            let number = u8::from(refusal);
            print!(rt; "a text buffer of 80 bytes\nrefused {number}")?;
        }
    }
    rt.write_all(b"\n")?;
    rt.write_all(&text)?;
    rt.write_all(b"\n")
}

fn main(rt: HostRuntime) -> io::Result<()> {
    show_ones(&rt, b"no bytes\n", 0)?;
    show_ones(&rt, b"31 bytes\n", 31)?;
    show_ones(&rt, b"32 bytes\n", 32)?;
    show_ones(&rt, b"33 bytes\n", 33)?;
    kind_zero(&rt)?;
    kind_four(&rt)?;
    show_ones(&rt, b"65,536 bytes\n", trb::MAX_PRINTED_LOG)?;
    show_ones(&rt, b"65,537 bytes\n", trb::MAX_PRINTED_LOG + 1)?;
    show_ones(
        &rt,
        b"65,568 bytes\n",
        trb::MAX_PRINTED_LOG + trb::RECORD_LENGTH,
    )?;
    short_buffer(&rt)
}
