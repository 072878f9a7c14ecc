// `lend: TABLE`: how much to lend for planning a table.
use crate::print;

pub fn lend(rt: &impl Print, bytes: &[u8]) {
    match route::lend(bytes) {
        Ok(memory) => print::filled(
            rt,
            b"words A route bytes B\n",
            [memory.words, memory.route, 0, 0],
        ),
        Err(refusal) => print::refused(rt, refusal),
    }
}
