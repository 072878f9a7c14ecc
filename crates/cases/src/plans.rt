// `plan WORDS ROUTE: TABLE`: the call that plans a table, with so many words and route bytes lent. The words hold 7 before and the route bytes 9;
// after the call each of them is looked at, also behind the parts that were lent.
use crate::print;
use crate::tokens::{LETTER, TOKENS};
use near::Cost;
use table::refusals::Refusal;

const WORDS: usize = 129600;

pub const ROUTE: usize = 256;

// Plans the bytes with the first words and route bytes lent; one more than there are counts from 0 again. Prints the answer, how many words are 0
// then, how many behind them are still 7, and how many route bytes behind the steps are still 9.
pub fn plan(rt: &impl Print, numbers: &[usize; TOKENS], bytes: &[u8]) {
    let mut words = sevens();
    let mut route = [9u8; ROUTE];
    let n = numbers[1] % LETTER % 129601;
    let m = numbers[2] % LETTER % 257;
    let answer = route::plan(bytes, &mut words[..n], &mut route[..m]);
    show(rt, answer, &route);
    told(rt, &words, &route, steps_of(answer));
}

// The words before a call. They are so many that no proof is to look into them.
pub fn sevens() -> [u32; WORDS] {
    [7u32; WORDS]
}

pub fn told(rt: &impl Print, words: &[u32; WORDS], route: &[u8; ROUTE], steps: usize) {
    let zeros = past(words, 0, &0);
    let sevens = past(words, zeros, &7);
    let nines = past(route, steps, &9);
    print::filled(
        rt,
        b"cleared words 0 to A, untouched to B, untouched route bytes from C to D\n",
        [zeros, sevens, steps, nines],
    );
}

// Prints the answer as `plan` does.
fn show(rt: &impl Print, answer: Result<Option<Cost>, Refusal>, route: &[u8; ROUTE]) {
    match answer {
        Ok(Some(cost)) => {
            print::with(rt, b"charge A\nroute", cost.charge as usize);
            listed(rt, route, cost.steps as usize);
        }
        Ok(None) => print::text(rt, b"no route\n"),
        Err(refusal) => print::refused(rt, refusal),
    }
}

// The steps of a route, of which there are never more than route bytes, and the end of their line.
pub fn listed(rt: &impl Print, route: &[u8; ROUTE], n: usize) {
    print::list(rt, route, n);
    print::text(rt, b"\n");
}

// How many steps or pairs the answer has.
pub fn steps_of(answer: Result<Option<Cost>, Refusal>) -> usize {
    match answer {
        Ok(Some(cost)) => cost.steps as usize,
        _ => 0,
    }
}

// The first place from a place on where the element is not x, or behind the last one.
pub fn past<T: PartialEq>(elements: &[T], from: usize, x: &T) -> usize {
    for (at, element) in elements.iter().enumerate().skip(from) {
        if element != x {
            return at;
        }
    }
    elements.len()
}
