// Packs the readings of right.txt into right.bin.
#![tactic(auto)]

use anyhow::anyhow;
use files::reader::LONGEST;
use kinds::reading::Reading;
use packing::file::pack;
use refusals::fault::Side;
use std::io::Read;
use std::{fs, io};

// At most one byte more than a file may have: that tells that it is too long. These few lines stand in each program, since what
// is shared is proved, and no clause can say what a file gives.
fn read_text(rt: &HostRuntime) -> io::Result<Vec<u8>> {
    let mut bytes = Vec::new(rt.alloc());
    fs::open(rt, "right.txt")?
        .take(LONGEST as u64 + 1)
        .read_to_end(&mut bytes)?;
    Ok(bytes)
}

// The file stands under its name only once it is whole.
fn write_binary(rt: &HostRuntime, bytes: &[u8]) -> io::Result<()> {
    if let Err(error) = fs::write(rt, "right.bin.part", bytes) {
        let _ = fs::remove_file(rt, "right.bin.part");
        return Err(error);
    }
    fs::rename(rt, "right.bin.part", "right.bin")
}

// Each failure is matched, and not mapped: telling it on standard error may fail too.
fn main(rt: HostRuntime) -> anyhow::Result<()> {
    let text = match read_text(&rt) {
        Ok(text) => text,
        Err(error) => {
            eprintln!(rt; "pack: right.txt cannot be read: {error}")?;
            return Err(anyhow!("right.txt cannot be read"));
        }
    };
    let mut out = vec![in rt.alloc(); 0u8; LONGEST]?;
    match pack::<Reading>(rt.alloc(), Side::Right, text.as_slice(), out.as_mut_slice())? {
        Ok(packed) => {
            out.truncate(packed.bytes);
            if let Err(error) = write_binary(&rt, out.as_slice()) {
                eprintln!(rt; "pack: right.bin cannot be written: {error}")?;
                return Err(anyhow!("right.bin cannot be written"));
            }
            let (events, bytes) = (packed.events, packed.bytes);
            eprintln!(rt; "pack: events: {events}, bytes: {bytes}")?;
            Ok(())
        }
        Err(fault) => {
            // A fault of the writer names no event, and is told as at event 0.
            let event = fault.event.unwrap_or(0);
            let why = fault.refusal;
            println!(rt; "{fault}")?;
            eprintln!(rt; "pack: right.txt, event {event}: {why}")?;
            Err(anyhow!("right.txt is refused"))
        }
    }
}
