// Reads the rule sheet `game.txt` in the folder that it is run in, and tells what it is made of.
#![tactic(auto)]

use sheets::{SheetFault, read_outline};
use std::io::{ErrorKind, Read, Write};
use std::{fs, io};
use text::{Fault, Fields, Lines, field_count};

// One byte more than a sheet may have, so that a sheet that is too big shows.
const MOST_BYTES: u64 = 65536;

// The sheet's bytes, as far as it may be read; none where there is no file.
fn read_sheet(rt: &HostRuntime) -> io::Result<Vec<u8>> {
    let mut bytes = Vec::new(rt.alloc());
    match fs::open(rt, "game.txt") {
        Ok(file) => {
            file.take(MOST_BYTES).read_to_end(&mut bytes)?;
        }
        Err(error) => {
            if error.kind() != ErrorKind::NotFound {
                return Err(error);
            }
        }
    }
    Ok(bytes)
}

// `sheet`, and then the fault's number, line and field.
fn print_fault(rt: &HostRuntime, fault: SheetFault) -> io::Result<()> {
    let told = fault.told();
    println!(rt; "sheet\t{told}")
}

// A record's word, and how many fields it has.
fn print_record(rt: &HostRuntime, line: &[u8]) -> io::Result<()> {
    let mut fields = Fields::new(line);
    if let Some(word) = fields.next() {
        rt.stdout().write_all(word)?;
    }
    let count = field_count(line);
    println!(rt; "\t{count}")
}

// Every record of a sheet of so many lines, and then how many there are.
fn print_records(rt: &HostRuntime, sheet: &[u8], count: usize) -> io::Result<()> {
    let mut lines = Lines::new(sheet);
    // Counted by the outline: a loop until the last line would need a measure, proved in a file of the program's own.
    for _ in 0..count {
        if let Ok(Some(line)) = lines.next() {
            print_record(rt, line)?;
        }
    }
    println!(rt; "lines\t{count}")
}

fn run(rt: &HostRuntime) -> io::Result<()> {
    let bytes = read_sheet(rt)?;
    let sheet = bytes.as_slice();
    match read_outline(sheet) {
        Ok(outline) => print_records(rt, sheet, outline.lines),
        Err(fault) => print_fault(rt, fault),
    }
}

fn main(rt: HostRuntime) -> io::Result<()> {
    run(&rt)
}
