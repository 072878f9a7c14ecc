// Printing to standard output.
use std::fmt::Display;
use table::refusals::Refusal;

// A write that fails is passed over, and the next text is printed all the same.
pub fn text(rt: &impl Print, bytes: &[u8]) {
    let _ = rt.write_all(bytes);
}

// A line that has no name of a call.
pub fn unknown(rt: &impl Print, line: &[u8]) {
    text(rt, b"not understood: ");
    text(rt, line);
}

// A text in which A, B, C and D stand for numbers, and H for the first in hexadecimal.
pub fn filled(rt: &impl Print, text: &[u8], numbers: [usize; 4]) {
    for &byte in text {
        put(rt, byte, numbers);
    }
}

// A byte of such a text.
fn put(rt: &impl Print, byte: u8, numbers: [usize; 4]) {
    match byte {
        b'A'..=b'D' => {
            let _ = rt.print(numbers[usize::from(byte - b'A')]);
        }
        b'H' => {
            let n = numbers[0];
            let _ = print!(rt; "{n:02x}");
        }
        _ => text(rt, &[byte]),
    }
}

// A text in which A stands for a number, or H.
pub fn with(rt: &impl Print, text: &[u8], n: usize) {
    filled(rt, text, [n, 0, 0, 0]);
}

// The line of a refusal.
pub fn refused(rt: &impl Print, refusal: Refusal) {
    with(rt, b"refused A\n", number(refusal));
}

// The number by which it is told.
pub fn number(refusal: Refusal) -> usize {
    usize::from(u8::from(refusal))
}

// The first n entries, each behind a blank.
pub fn list<T: Display>(rt: &impl Print, entries: &[T], n: usize) {
    for entry in entries.iter().take(n) {
        let _ = print!(rt; " {entry}");
    }
}

// The first n bytes of a table, each in hexadecimal behind a blank.
pub fn bytes(rt: &impl Print, bytes: &[u8], n: usize) {
    for byte in bytes.iter().take(n) {
        let _ = print!(rt; " {byte:02x}");
    }
}
