// `search WORDS: TABLE`: the words that a search leaves, and the words after clearing. The words lent hold 7 before.

use crate::print;
use crate::tokens::{LETTER, TOKENS};
use rules::RULES;
use table::Table;
use table::refusals::Refusal;

const MOST_WORDS: usize = 6000;

// One word more than there are counts from 0 again.
pub fn search(rt: &impl Print, table: &Table, numbers: &[usize; TOKENS]) {
    let mut words = [7u32; MOST_WORDS];
    let n = numbers[1] % LETTER % 6001;
    shown(rt, table, &mut words[..n]);
}

fn shown(rt: &impl Print, table: &Table, words: &mut [u32]) {
    answered(rt, searched(table, words));
    list(rt, words);
    search::clear(words, table);
    print::text(rt, b"cleared");
    list(rt, words);
}

// The search for the table's own goal.
pub fn searched(table: &Table, words: &mut [u32]) -> Result<usize, Refusal> {
    let mut rules = [0u8; RULES];
    rules::make(table, &mut rules);
    search::search(words, table, &rules, table.goal())
}

// The answer, and what the words are listed behind.
fn answered(rt: &impl Print, answer: Result<usize, Refusal>) {
    match answer {
        Ok(nodes) => print::with(rt, b"nodes A\nwords", nodes),
        Err(refusal) => print::with(rt, b"refused A\nwords", print::number(refusal)),
    }
}

fn list(rt: &impl Print, words: &[u32]) {
    print::list(rt, words, words.len());
    print::text(rt, b"\n");
}
