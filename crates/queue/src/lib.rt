// The priority queue of a search in Dijkstra's order: a tournament of the nodes that are pending, kept in the spare halves of its words.
// Node v has its charge at word 2v and, in word 2v + 1, its steps in the low half; the high half of word 2x + 1 is slot x of the tournament.
// Nodes and places are counted in 32 bits here: the unit's core halves and compares no more at once.
#![tactic(auto)]

ghost use Rattle.std.specs.Prelude.{◌≡◌, suc, ◌+◌, ◌*◌, ◌%◌, ◌≤◌, ◌<◌, length};
ghost use Rattle.semantics.specs.Graph.Path.{charge_at, steps_at};
ghost use Rattle.queue.specs.Tournament.{none, winner};
ghost use Rattle.queue.specs.Queue.{lows, slot_at, as_node, players, QueueRoom, RelaxReady, RelaxDone, LowerReady, LowerDone, SettleReady, SettleDone};
ghost use Rattle.queue.specs.Playing.{key_in, Seat, Told, put, Place, GoneUp};

// Nobody: what a slot holds if no node below it is pending. The matches read, compare and store it as it stands in the slots: an option would be made of
// each half and taken apart again.
const NONE: u32 = 0xFFFF;

// The charge of an unreached node.
const INFINITY: u32 = 0xFFFF_FFFF;

// The high half of a word counts this much.
const HALF: u32 = 0x1_0000;

// The key of nobody, greater than that of any node.
const NO_KEY: u64 = 0xFFFF_FFFF_FFFF_FFFF;

// The charge of a node.
pub fn charge_of(words: &[u32], node: usize) -> u32
    requires { 2 * node + 1 < length words.now }
    ensures { result ≡ charge_at words.now node }
{
    let at = 2 * node;
    words[at]
}

// Its steps.
pub fn steps_of(words: &[u32], node: usize) -> u32
    requires { 2 * node + 1 < length words.now }
    ensures { result ≡ steps_at words.now node % 65536 }
{
    words[2 * node + 1] % HALF
}

// What a node is compared by.
fn key(words: &[u32], node: u32) -> u64
    requires { (node < none) × (2 * node + 1 < length words.now) }
    ensures { result ≡ key_in words.now node }
{
    let at = node as usize;
    let charge = u64::from(charge_of(words, at));
    let steps = u64::from(steps_of(words, at));
    (charge * 65536 + steps) * 65536 + u64::from(node)
}

// A slot of the tournament.
fn slot(words: &[u32], place: u32) -> u32
    requires { 2 * place + 1 < length words.now }
    ensures { result ≡ slot_at words.now place }
{
    words[2 * place as usize + 1] / HALF
}

fn set_slot(words: &mut [u32], place: u32, node: u32)
    requires { (2 * place + 1 < length words.old) × (node ≤ none) }
    ensures { words.new ≡ put words.old place node }
{
    let at = 2 * place as usize + 1;
    words[at] = node * HALF + words[at] % HALF;
}

// The first of the pending nodes.
pub fn first(words: &[u32]) -> Option<usize>
    requires { 3 < length words.now }
    ensures { result ≡ as_node (slot_at words.now 1) }
{
    let node = slot(words, 1);
    if node < NONE {
        Some(node as usize)
    } else {
        None
    }
}

// Whether who is in a slot comes before this key; nobody does not.
fn ahead(words: &[u32], node: u32, own: u64) -> bool
    requires { Seat words.now node }
    ensures { Told words.now node own result }
{
    if node == NONE {
        return false;
    }
    key(words, node) < own
}

// The winner at a place, if all keys up to `settled` are settled.
fn winner(words: &[u32], nodes: u32, place: u32, settled: u64) -> u32
    requires { Place nodes place words.now }
    ensures { result ≡ winner nodes (players (suc settled) (lows nodes words.now)) (slot_at words.now) place }
{
    if place < nodes {
        return slot(words, place);
    }
    let node = place - nodes;
    if charge_of(words, node as usize) == INFINITY {
        return NONE;
    }
    if settled < key(words, node) {
        node
    } else {
        NONE
    }
}

// A node goes up from its leaf as far as it wins. No range goes over the places on the way up, each half of the one before.
fn raise(words: &mut [u32], nodes: u32, node: u32)
    requires { QueueRoom nodes words.old × (node < nodes) }
    ensures { GoneUp nodes node words.old words.new }
{
    let own = key(words, node);
    let mut place = (nodes + node) / 2;
    while 0 < place {
        if ahead(words, slot(words, place), own) {
            return;
        }
        set_slot(words, place, node);
        place /= 2;
    }
}

// A node gets a cost that is less than its own.
pub fn lower(words: &mut [u32], nodes: usize, node: usize, charge: u32, steps: u32)
    requires { LowerReady nodes node charge steps words.old }
    ensures { LowerDone nodes node charge steps words.old words.new }
{
    let high = words[2 * node + 1] / HALF;
    words[2 * node] = charge;
    words[2 * node + 1] = high * HALF + steps;
    raise(words, nodes as u32, node as u32);
}

// A node is offered a cost, and gets it if it is less than its own.
pub fn relax(words: &mut [u32], nodes: usize, node: usize, charge: u32, steps: u32)
    requires { RelaxReady nodes node charge steps words.old }
    ensures { RelaxDone nodes node charge steps words.old words.new }
{
    let own = charge_of(words, node);
    if own < charge {
        return;
    }
    if own == charge {
        if steps_of(words, node) <= steps {
            return;
        }
    }
    lower(words, nodes, node, charge, steps);
}

// The first of the pending nodes is settled: the matches on the way up from its leaf are played again without it.
pub fn settle(words: &mut [u32], nodes: usize, node: usize)
    requires { SettleReady nodes node words.old }
    ensures { SettleDone nodes node words.old words.new }
{
    let settled = key(words, node as u32);
    let mut place = nodes as u32 + node as u32;
    let mut best = NONE;
    let mut least = NO_KEY;
    while 1 < place {
        let up = place / 2;
        // The two places below `up` are 2 × up and 2 × up + 1.
        let other = winner(words, nodes as u32, 4 * up + 1 - place, settled);
        if ahead(words, other, least) {
            best = other;
            least = key(words, other);
        }
        set_slot(words, up, best);
        place = up;
    }
}
