// Joins the tallies of left.txt with the readings of right.bin, and prints receipt lines and window records.
#![tactic(auto)]

use anyhow::anyhow;
use binary::form::Binary;
use decimals::read_decimal;
use files::reader::{LONGEST, Reader};
use hashed::store::HashedStore;
use kinds::reading::Reading;
use kinds::tally::Tally;
use layers::layer::Layer;
use receipts::line::Line;
use receipts::window::Window;
use refusals::fault::{Fault, Side};
use refusals::refusal::Refusal;
use rows::payload::UNLIMITED;
use rules::select::Select;
use run::report::RunReport;
use run::running::run;
use sorted::table::SortedStore;
use sources::source::Source;
use std::io::Read;
use std::{fs, io};
use stores::store::Store;
use text::form::Text;

// Places for lines, and for window records.
const PLACES: usize = 1_024;

// At most one byte more than a file may have: that tells that it is too long. These few lines stand in each program, since what
// is shared is proved, and no clause can say what a file gives.
fn read_file(rt: &HostRuntime, path: &str) -> io::Result<Vec<u8>> {
    let mut bytes = Vec::new(rt.alloc());
    fs::open(rt, path)?
        .take(LONGEST as u64 + 1)
        .read_to_end(&mut bytes)?;
    Ok(bytes)
}

// At most 16 bytes: a width and its line feed have fewer.
fn read_input(rt: &HostRuntime) -> io::Result<Vec<u8>> {
    let mut bytes = Vec::new(rt.alloc());
    rt.stdin().take(16).read_to_end(&mut bytes)?;
    Ok(bytes)
}

// A width and a line feed, and nothing else.
fn width_in(input: &[u8]) -> Result<u32, Refusal> {
    match read_decimal(input) {
        Ok((width, [b'\n'])) => Ok(width),
        _ => Err(Refusal::BadWidth),
    }
}

// The keys that are served, at any value.
fn served() -> Result<Select, Refusal> {
    Select::new(0, 8_999, 0, UNLIMITED)
}

fn serve(
    input: &[u8],
    left: &[u8],
    right: &[u8],
    lines: &mut [Line],
    windows: &mut [Window],
) -> Result<RunReport, Fault> {
    let width = width_in(input)?;
    let tallies: Reader<Text, Tally> = Reader::new(left);
    let readings: Reader<Binary, Reading> = Reader::new(right);
    let mut left = Layer::new(tallies, served()?);
    let mut right = Layer::new(readings, served()?);
    Ok(run::<Tally, Reading, SortedStore, HashedStore, _, _>(
        width, &mut left, &mut right, lines, windows,
    ))
}

fn print_lines(rt: &HostRuntime, lines: &[Line]) -> anyhow::Result<()> {
    for line in lines {
        println!(rt; "{line}")?;
    }
    Ok(())
}

// Each window's lines, and then its record.
fn print_windows(rt: &HostRuntime, lines: &[Line], windows: &[Window]) -> anyhow::Result<()> {
    let mut left = lines;
    for window in windows {
        let (own, later) = left.split_at(window.lines.min(left.len()));
        print_lines(rt, own)?;
        println!(rt; "{window}")?;
        left = later;
    }
    Ok(())
}

fn tell(rt: &HostRuntime, fault: Fault) -> anyhow::Result<()> {
    println!(rt; "{fault}")?;
    let why = fault.refusal;
    let file = match fault.side {
        Some(Side::Left) => "left.txt",
        Some(Side::Right) => "right.bin",
        None => "the width",
    };
    match fault.event {
        Some(event) => eprintln!(rt; "hall: {file}, event {event}: {why}")?,
        None => eprintln!(rt; "hall: {file}: {why}")?,
    }
    Err(anyhow!("the run met a fault"))
}

fn main(rt: HostRuntime) -> anyhow::Result<()> {
    let input = read_input(&rt)?;
    let left = read_file(&rt, "left.txt")?;
    let right = read_file(&rt, "right.bin")?;
    let mut lines = vec![in rt.alloc(); Line::default(); PLACES]?;
    let mut windows = vec![in rt.alloc(); Window::default(); PLACES]?;
    // A match, and no map: telling a fault may fail too
    let report = match serve(
        input.as_slice(),
        left.as_slice(),
        right.as_slice(),
        lines.as_mut_slice(),
        windows.as_mut_slice(),
    ) {
        Ok(report) => report,
        Err(fault) => return tell(&rt, fault),
    };
    lines.truncate(report.lines);
    windows.truncate(report.windows);
    print_windows(&rt, lines.as_slice(), windows.as_slice())?;
    match report.ending {
        Ok(()) => {
            println!(rt;
                "E {} {} {}",
                report.closed, report.held_left, report.held_right
            )?;
            Ok(())
        }
        Err(fault) => tell(&rt, fault),
    }
}
