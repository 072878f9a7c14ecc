// Runs the script on standard input, a case to a line, and prints what comes out. The script's first lines say how a case is written.
#![tactic(auto)]

mod cells;
mod chains;
mod lends;
mod operations;
mod places;
mod plans;
mod print;
mod readings;
mod resets;
mod scripts;
mod searches;
mod timetables;
mod tokens;
mod writes;

use crate::tokens::TOKENS;
use std::io;
use std::io::Read;
use table::Table;

// Of a script the first 65,536 bytes are run.
fn main(rt: HostRuntime) -> io::Result<()> {
    let mut script = Vec::new(rt.alloc());
    rt.stdin().take(65536).read_to_end(&mut script)?;
    run(&rt, &script);
    Ok(())
}

// Runs each line that has its end, with it.
fn run(rt: &impl Print, script: &[u8]) {
    for line in script.split_inclusive(|byte| *byte == b'\n') {
        if line.ends_with(b"\n") {
            run_line(rt, line);
        }
    }
}

// Splits a line, and runs it.
fn run_line(rt: &impl Print, line: &[u8]) {
    let mut numbers = [0usize; TOKENS];
    let mut bytes = [0u8; TOKENS];
    tokens::read(line, &mut numbers);
    let count = tokens::bytes(line, &mut bytes);
    called(rt, numbers[0], line, &numbers, &bytes[..count]);
}

// The names of the calls as tokens, by their last five letters; and what begins a title and a comment.
const PLAN: usize = 0x70_6c61_6e00_0000;

const LEND: usize = 0x6c_656e_6400_0000;

const READ: usize = 0x72_6561_6400_0000;

const REGION: usize = 0x6567_696f_6e00_0000;

const CORNERS: usize = 0x726e_6572_7300_0000;

const SEARCH: usize = 0x6561_7263_6800_0000;

const CHAIN: usize = 0x6368_6169_6e00_0000;

const RESET: usize = 0x7265_7365_7400_0000;

const WRITE: usize = 0x7772_6974_6500_0000;

const TIMETABLE: usize = 0x7461_626c_6500_0000;

const TITLE: usize = 0x3d00_0000;

const COMMENT: usize = 0x2300_0000;

// Runs a call: the first token is its name, the others are its numbers, and behind the colon are the bytes of a table. A title is printed as it
// stands. A name is a number as every token is, whatever stands in a script.
fn called(rt: &impl Print, name: usize, line: &[u8], numbers: &[usize; TOKENS], bytes: &[u8]) {
    match name {
        PLAN => plans::plan(rt, numbers, bytes),
        TIMETABLE => timetables::timetable(rt, numbers, bytes),
        LEND => lends::lend(rt, bytes),
        WRITE => writes::write(rt, numbers, bytes),
        REGION => scripts::region(rt, numbers),
        RESET => resets::reset(rt, numbers, bytes),
        CORNERS => cells::corners(rt, scripts::timers(numbers)),
        READ | SEARCH | CHAIN => of_table(rt, numbers, bytes),
        0 | COMMENT => {}
        TITLE => print::text(rt, line),
        _ => print::unknown(rt, line),
    }
}

// The calls that take a table, if the reader accepts its bytes.
fn of_table(rt: &impl Print, numbers: &[usize; TOKENS], bytes: &[u8]) {
    match reader::table_of(bytes) {
        Ok(table) => of_accepted(rt, numbers, &table),
        Err(refusal) => print::refused(rt, refusal),
    }
}

fn of_accepted(rt: &impl Print, numbers: &[usize; TOKENS], table: &Table) {
    match numbers[0] {
        READ => readings::read(rt, table),
        SEARCH => searches::search(rt, table, numbers),
        _ => chains::chain(rt, table, numbers),
    }
}
