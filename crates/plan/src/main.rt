// Reads a table from standard input and prints its plan.
#![tactic(auto)]

ghost use Rattle.std.specs.Prelude.{ℕ, ◌≡◌, List, ◌++◌, length};
ghost use Rattle.std.specs.Counts.{IsPrefixLen};
ghost use Rattle.report.specs.Text.{printed};

use reader::LONGEST;
use report::TEXT;
use std::io;
use std::io::Read;

// One byte more than the longest table has.
const KEPT: usize = LONGEST + 1;

fn main(rt: HostRuntime) -> io::Result<()> {
    let mut bytes = [0u8; KEPT];
    let count = read_table(&mut rt.stdin(), &mut bytes);
    let mut text = [0u8; TEXT];
    let length = report::plan_text(&bytes[..count], &mut text);
    rt.write_all(&text[..length])
}

// Reads the input to its end, and says how many bytes are kept. Where that is all that there is room for, no bytes behind them change what is printed.
fn read_table(input: &mut impl Read, bytes: &mut [u8; KEPT]) -> usize
    ensures within { IsPrefixLen result bytes.new }
    ensures full { (rest : List ℕ) → result ≡ length bytes.new → printed bytes.new ≡ printed (bytes.new ++ rest) }
{
    let count = read_full(input, bytes);
    if count == KEPT {
        skip_rest(input);
    }
    count
}

// Reads what is left of the input, up to some 17 terabytes, so that whoever writes it is not cut off.
fn skip_rest(input: &mut impl Read) {
    let mut rest = [0u8; 4096];
    for _ in 0..0xFFFF_FFFFu32 {
        if read_full(input, &mut rest) < 4096 {
            return;
        }
    }
}

// Reads until the buffer is full, the input ends or a read fails, and says how many bytes were put at the start of it. The reads say how far it got,
// and no range does.
fn read_full(input: &mut impl Read, bytes: &mut [u8]) -> usize
    ensures { IsPrefixLen result bytes.new }
{
    let mut done = 0;
    while done < bytes.len() {
        match input.read(&mut bytes[done..]) {
            Ok(0) => break,
            Ok(n) => done += n,
            Err(_) => break,
        }
    }
    done
}
