// Plans the tables on standard input, each behind its length in 16 bits, the low byte first, and prints for each what `plan` prints.
// The file `stdin` has the 300 tables of the base's shared vectors, the 300 of those with high bytes, and seven at the limits: one that needs 6,000 words
// and one that needs the next more, 6,006; a route of 256 steps and one of 257; the longest table, whose 16 modes need more words than are lent, and the
// same with a byte left over; and one whose charge is 140 times 65,535.
#![tactic(auto)]

use report::TEXT;
use std::io;
use std::io::Read;

// The first 65,536 bytes are read.
fn main(rt: HostRuntime) -> io::Result<()> {
    let mut bytes = Vec::new(rt.alloc());
    rt.stdin().take(65536).read_to_end(&mut bytes)?;
    each(&rt, &bytes)
}

// The tables one after another, as long as there is a whole one: of other lengths each, so that no `chunks` has them.
fn each(rt: &impl Print, bytes: &[u8]) -> io::Result<()> {
    let mut rest = bytes;
    while 2 <= rest.len() {
        let length = usize::from(u16::from_le_bytes([rest[0], rest[1]]));
        let end = 2 + length;
        if rest.len() < end {
            return Ok(());
        }
        one(rt, &rest[2..end])?;
        rest = &rest[end..];
    }
    Ok(())
}

fn one(rt: &impl Print, table: &[u8]) -> io::Result<()> {
    let mut text = [0u8; TEXT];
    let length = report::plan_text(table, &mut text);
    rt.write_all(&text[..length])
}
