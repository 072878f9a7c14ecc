// `timetable WORDS ROUTE: TABLE`: the call that gives the timetable of a table, with so many words and route bytes lent, as `plan` lends them.
use crate::plans::ROUTE;
use crate::tokens::{LETTER, TOKENS};
use crate::{plans, print};
use near::Cost;
use table::refusals::Refusal;

// Prints the answer, and what became of the words and of the route bytes behind the pairs.
pub fn timetable(rt: &impl Print, numbers: &[usize; TOKENS], bytes: &[u8]) {
    let mut words = plans::sevens();
    let mut route = [9u8; ROUTE];
    let n = numbers[1] % LETTER % 129601;
    let m = numbers[2] % LETTER % 257;
    let answer = timetable::timetable(bytes, &mut words[..n], &mut route[..m]);
    show(rt, answer, &route);
    plans::told(rt, &words, &route, bytes_of(plans::steps_of(answer)));
}

// Prints the answer; of a timetable its charge, its number of pairs, and for each pair the minutes and the move.
fn show(rt: &impl Print, answer: Result<Option<Cost>, Refusal>, route: &[u8; ROUTE]) {
    match answer {
        Ok(Some(cost)) => {
            let pairs = cost.steps as usize;
            print::filled(
                rt,
                b"charge A\npairs B:",
                [cost.charge as usize, pairs, 0, 0],
            );
            plans::listed(rt, route, bytes_of(pairs));
        }
        Ok(None) => print::text(rt, b"no route\n"),
        Err(refusal) => print::refused(rt, refusal),
    }
}

// Two for each pair. There are never more pairs than half the route bytes.
fn bytes_of(pairs: usize) -> usize {
    2 * (pairs % 129)
}
