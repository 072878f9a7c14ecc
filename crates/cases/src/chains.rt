// `chain STEP STEP ..: TABLE`: the places of a chain, and what the words of a search say of each.
ghost use Rattle.cases.specs.Kept.{OnChain};

use crate::places::Place;
use crate::tokens::{LETTER, TOKENS};
use crate::{places, print, scripts, searches};
use regions::{Region, nodes};
use table::Table;

const WORDS: usize = 6000;

pub fn chain(rt: &impl Print, table: &Table, numbers: &[usize; TOKENS]) {
    let mut words = [0u32; WORDS];
    match searches::searched(table, &mut words) {
        Ok(_) => follow(rt, table, &words, numbers),
        Err(refusal) => print::refused(rt, refusal),
    }
}

// The start and the places after the steps, as far as the steps are allowed.
fn follow(rt: &impl Print, table: &Table, words: &[u32; WORDS], numbers: &[usize; TOKENS]) {
    let mut next = Some(places::start(rt, table));
    for (steps, &step) in numbers[1..].iter().enumerate() {
        let Some(place) = next else {
            print::text(rt, b": not allowed\n");
            return;
        };
        show(rt, table, words, place, steps as u32);
        if step == 0 {
            return;
        }
        next = places::step(rt, table, place, step % LETTER);
    }
}

// The place, and whether it stands by the words after so many steps.
fn show(rt: &impl Print, table: &Table, words: &[u32; WORDS], place: Place, steps: u32)
    requires { OnChain table.now.bytes 0 place.mode place.region }
{
    let Place { mode, region } = place;
    let node = nodes::node_of(mode, region, 0, table.ceilings());
    if stands(words, node, region, steps) {
        print::with(rt, b", stands in mode A", mode);
    } else {
        print::with(rt, b", does not stand in mode A", mode);
    }
    scripts::parts(rt, region);
}

// Whether the words say of some corner that it costs its price and so many steps. The corners are nodes in a row, from the node on.
fn stands(words: &[u32; WORDS], node: usize, region: Region, steps: u32) -> bool {
    let corners = region.prices.iter().take(usize::from(region.top) % 4 + 1);
    for (corner, &price) in corners.enumerate() {
        if costs(words, node % 3000 + corner, price, steps) {
            return true;
        }
    }
    false
}

// Whether they say so of a node. Those of every node are there; past the last the first come again.
fn costs(words: &[u32; WORDS], node: usize, price: u32, steps: u32) -> bool {
    let at = node % 3000 * 2;
    words[at] == price && words[at + 1] == steps
}
