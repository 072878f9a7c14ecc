// `write ROOM AT VALUE ..: TABLE`: the call that writes a table from a form. The destination's bytes hold 9 before; after the call each of them is
// looked at, also behind the part that was lent.
use crate::plans::past;
use crate::print;
use crate::tokens::{LETTER, TOKENS};
use form::FORM;
use table::refusals::Refusal;

const ROOM: usize = 1024;

// Fills a form from the table, if it is one, sets bytes of it, and writes it into the first bytes of the destination.
pub fn write(rt: &impl Print, numbers: &[usize; TOKENS], bytes: &[u8]) {
    let mut form = [0u8; FORM];
    let _ = form::fill(bytes, &mut form);
    set(numbers, &mut form);
    let mut destination = [9u8; ROOM];
    let n = numbers[1] % LETTER % 1025;
    let answer = writer::write(&form, &mut destination[..n]);
    show(rt, answer, &destination);
}

// Sets the byte at a place to a value, for each pair of numbers; one more than there are counts from 0 again.
fn set(numbers: &[usize; TOKENS], form: &mut [u8; FORM]) {
    for pair in numbers[2..].chunks_exact(2) {
        let at = pair[0];
        if at == 0 {
            return;
        }
        form[at % LETTER % FORM] = (pair[1] % 256) as u8;
    }
}

// Prints the bytes that were written, or the refusal, and how many of those behind are still 9.
fn show(rt: &impl Print, answer: Result<usize, Refusal>, destination: &[u8; ROOM]) {
    match answer {
        Ok(n) => {
            print::with(rt, b"bytes A:", n);
            listed(rt, destination, n);
        }
        Err(refusal) => print::refused(rt, refusal),
    }
    let n = answer.unwrap_or(0);
    let nines = past(destination, n, &9);
    print::filled(rt, b"untouched from A to B\n", [n, nines, 0, 0]);
}

// The bytes of a table, and the end of their line.
fn listed(rt: &impl Print, bytes: &[u8; ROOM], n: usize) {
    print::bytes(rt, bytes, n);
    print::text(rt, b"\n");
}
