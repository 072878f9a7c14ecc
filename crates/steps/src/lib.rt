// Layer 3, beside the search: the steps of a walk along what it found.
#![tactic(auto)]

ghost use Rattle.std.specs.Prelude.{◌≡◌, true, cond, ◌↔◌, ◌<◌, ltb};
ghost use Rattle.regions.specs.Held.{view};
ghost use Rattle.steps.specs.Steps.{Marked, StandReady, NextStep};
ghost use Rattle.steps.specs.Images.{corner_of, RegionReady, Goes, IsImage};
ghost use Rattle.steps.specs.Leading.{Adds, TightReady, TightAt, LedTo, CornersReady, LeadReady, IsLed, MoveEdges, LedMoveReady, DelayEdges, LedDelayReady, TriedOne, Tried, MoveByte, OnlyByte, IsFound, StepReady, AlongReady, FromReady, FromDone};
ghost use Rattle.table.specs.Meaning.{named_timers};
ghost use Rattle.space.specs.Images.{ImageReady, Images, ImageDone};

use regions::nodes::NodeRegion;
use regions::{Region, nodes};
use rules::RULES;
use space::graph::CornerGraph;
use space::{Space, moves};

// Where a walk stands: the node of the place's corner 0, a bit for each of its corners that is marked, how many steps led to it, and the byte from
// which on steps are still to be tried.
#[derive(Clone, Copy)]
pub struct Stand {
    pub first: usize,
    pub set: u32,
    pub steps: u32,
    pub byte: usize,
}

// The byte of a step, and of the place to which it leads the node of corner 0 and the marked corners.
#[derive(Clone, Copy)]
pub struct Next {
    pub byte: usize,
    pub first: usize,
    pub set: u32,
}

// The bytes of delay and linger. They stay bytes, as in a route, where steps are compared by them.
const DELAY: usize = 64;

const LINGER: usize = 65;

// Whether a corner is in the set.
pub fn marked(set: u32, corner: usize) -> bool
    requires { corner < 32 }
    ensures { (result ≡ true) ↔ Marked set corner }
{
    (set >> corner) % 2 == 1
}

// The set with the corner.
fn with(set: u32, corner: usize) -> u32
    requires { (set < 16) × (corner < 4) }
    ensures { Adds Unit set corner result }
{
    set | 1 << corner
}

// Whether an edge of that weight is tight: by the words its end is reached along it, in so many steps.
fn tight(words: &[u32], from: usize, to: usize, weight: u32, steps: u32) -> bool
    requires { TightReady words.now from to weight }
    ensures { (result ≡ true) ↔ TightAt words.now from to weight steps }
{
    words[2 * to + 1] == steps && words[2 * to] == words[2 * from] + weight
}

// The set with corner i, if corner j is marked and the edge of that weight from it to corner i of the place whose corner 0 is the node `to` is tight.
fn lead(words: &[u32], stand: Stand, set: u32, j: usize, to: usize, i: usize, weight: u32) -> u32
    requires { CornersReady stand words.now × LeadReady words.now set j to i weight }
    ensures { Adds (LedTo stand words.now to j weight i) set i result }
{
    if marked(stand.set, j) && tight(words, stand.first + j, to + i, weight, stand.steps + 1) {
        return with(set, i);
    }
    set
}

// The corner to which corner j goes by a map, which has two bits for each.
fn corner_of(map: u32, j: usize) -> usize
    requires { j < 4 }
    ensures { result ≡ corner_of map j }
{
    ((map >> (2 * j)) % 4) as usize
}

// The corners to which a move leads from the marked ones along tight edges, by the map of its resets.
fn led_by_move(words: &[u32], stand: Stand, map: u32, to: usize, price: u32) -> u32
    requires { LedMoveReady stand words.now map to price }
    ensures { IsLed stand words.now to (MoveEdges map price 4) result }
{
    let mut next = 0;
    for j in 0..Region::MOST_CORNERS {
        next = lead(words, stand, next, j, to, corner_of(map, j), price);
    }
    next
}

// What a delay costs to a corner, if the region before it has the corners 0 to `top`.
fn delay_weight(top: usize, corner: usize, rate: u32) -> u32
    ensures { result ≡ cond (ltb top corner) rate 0 }
{
    if top < corner { rate } else { 0 }
}

// The corners to which a delay leads. The region after it says by its prices which corner comes from where.
fn led_by_delay(
    words: &[u32],
    stand: Stand,
    delayed: Region,
    to: usize,
    top: usize,
    rate: u32,
) -> u32
    requires { LedDelayReady stand words.now delayed to rate }
    ensures { IsLed stand words.now to (DelayEdges (view delayed) top rate) result }
{
    let prices = delayed.prices();
    let corners = delayed.top() + 1;
    let mut next = 0;
    for i in 0..corners {
        let j = prices[i] as usize;
        let weight = delay_weight(top, i, rate);
        next = lead(words, stand, next, j, to, i, weight);
    }
    next
}

// The first move of a mode, from the byte on, that is not passed over.
pub fn move_from(
    rules: &[u8; RULES],
    halves: [u8; Region::MOST_TIMERS],
    mode: usize,
    byte: usize,
) -> Option<usize>
    requires { FromReady rules.now mode byte }
    ensures { FromDone rules.now halves mode byte result }
{
    let mut next = rules::first(rules, mode);
    while let Some(e) = next {
        if byte <= e {
            break;
        }
        next = rules::after(rules, e);
    }
    moves::next_move(rules, halves, next)
}

// A step that was tried, if it marks a corner.
fn found(byte: usize, first: usize, set: u32) -> Option<Next>
    ensures { IsFound byte first set result }
{
    (set != 0).then_some(Next { byte, first, set })
}

// The map of resets: where each corner of the region before them goes. The region after them says so by its prices.
fn corners_after(moved: Region) -> u32
    requires { RegionReady moved }
    ensures { Goes (view moved) result }
{
    let prices = moved.prices();
    let last = moved.top();
    let from_0 = moves::last_at_most(prices, last, 0);
    let from_1 = moves::last_at_most(prices, last, 1);
    let from_2 = moves::last_at_most(prices, last, 2);
    let from_3 = moves::last_at_most(prices, last, 3);
    (from_0 + 4 * from_1 + 16 * from_2 + 64 * from_3) as u32
}

// What the resets of a byte do, in one word: the node of mode 0 to which they take corner 0, and the map above its 16 bits.
fn image_of(space: Space, at: NodeRegion, resets: u8) -> u32
    requires { ImageReady space at resets }
    ensures { IsImage space at (named_timers resets) result }
{
    let moved = at.region.reset_all(resets);
    let first = nodes::node_of(0, moved, 0, space.ceilings) as u32;
    first + 65536 * corners_after(moved)
}

// It is found once for each reset byte, as in the search: a place has many moves to try, and there are eight of these bytes.
fn image(images: &mut [u32; 8], space: Space, at: NodeRegion, resets: u8) -> u32
    requires { ImageReady space at resets × Images (IsImage space at) images.old }
    ensures { ImageDone (IsImage space at) resets images.new result }
{
    let k = (resets % 8) as usize;
    if images[k] == moves::NO_IMAGE {
        images[k] = image_of(space, at, resets);
    }
    images[k]
}

// Tries the step of a move that is allowed. The image is that of its reset byte: the target mode's nodes come so many blocks behind those of mode 0.
fn along_move(
    words: &[u32],
    corners: &CornerGraph,
    stand: Stand,
    image: u32,
    e: usize,
) -> Option<Next>
    requires { AlongReady corners.now.table.now.bytes corners.now.space stand words.now image e }
    ensures { TriedOne corners.now.table.now.bytes corners.now.space stand words.now e result }
{
    let target = corners.table.target(e) as u32;
    // The unit's core multiplies in 32 bits.
    let block = corners.space.block as u32;
    let to = (image % 65536 + target * block) as usize;
    let price = corners.table.price(e) as u32;
    found(e, to, led_by_move(words, stand, image / 65536, to, price))
}

// Tries the moves.
fn by_move(words: &[u32], corners: &CornerGraph, at: NodeRegion, stand: Stand) -> Option<Next>
    requires { StepReady corners.now.table.now.bytes corners.now.space at stand words.now }
    ensures { Tried corners.now.table.now.bytes corners.now.space stand words.now (MoveByte stand) result }
{
    if DELAY <= stand.byte {
        return None;
    }
    let halves = at.region.halves();
    let mut images = [moves::NO_IMAGE; 8];
    let mut next = move_from(corners.rules, halves, at.mode, stand.byte);
    while let Some(e) = next {
        let by_resets = image(&mut images, corners.space, at, corners.table.resets(e));
        let step = along_move(words, corners, stand, by_resets, e);
        if step.is_some() {
            return step;
        }
        next = moves::next_move(corners.rules, halves, rules::after(corners.rules, e));
    }
    None
}

// Tries the delay. The mode's row has its conditions and the ceilings.
fn by_delay(words: &[u32], corners: &CornerGraph, at: NodeRegion, stand: Stand) -> Option<Next>
    requires { StepReady corners.now.table.now.bytes corners.now.space at stand words.now }
    ensures { Tried corners.now.table.now.bytes corners.now.space stand words.now (OnlyByte 64 stand) result }
{
    if DELAY < stand.byte {
        return None;
    }
    let delayed = at.region.delay(0);
    if !rules::all_inside(corners.rules, at.mode, delayed.halves()) {
        return None;
    }
    let to = nodes::node_of(at.mode, delayed, 0, corners.space.ceilings);
    let rate = corners.table.rate(at.mode) as u32;
    found(
        DELAY,
        to,
        led_by_delay(words, stand, delayed, to, at.region.top(), rate),
    )
}

// Tries to linger. Only where r0 is empty, so that a delay takes a corner away, does it lead on, from corner 0 to the last.
fn by_linger(words: &[u32], corners: &CornerGraph, at: NodeRegion, stand: Stand) -> Option<Next>
    requires { StepReady corners.now.table.now.bytes corners.now.space at stand words.now }
    ensures { Tried corners.now.table.now.bytes corners.now.space stand words.now (OnlyByte 65 stand) result }
{
    if LINGER < stand.byte {
        return None;
    }
    let delayed = at.region.delay(0);
    let last = at.region.top();
    if last <= delayed.top() {
        return None;
    }
    let rate = corners.table.rate(at.mode) as u32;
    found(
        LINGER,
        at.first,
        lead(words, stand, 0, 0, at.first, last, rate),
    )
}

// The step of the least byte, from the walk's on, along which a tight edge leads on. By `or_else` nothing would be known of what a closure finds that
// has `corners`.
pub fn next_step(words: &[u32], corners: &CornerGraph, stand: Stand) -> Option<Next>
    requires { StandReady corners.now.table.now.bytes corners.now.rules.now corners.now.space stand words.now }
    ensures { NextStep corners.now.table.now.bytes corners.now.space stand words.now result }
{
    let space = corners.space;
    let at = nodes::region_at(space.timers, space.ceilings, stand.first);
    let moved = by_move(words, corners, at, stand);
    if moved.is_some() {
        return moved;
    }
    let delayed = by_delay(words, corners, at, stand);
    if delayed.is_some() {
        return delayed;
    }
    by_linger(words, corners, at, stand)
}
