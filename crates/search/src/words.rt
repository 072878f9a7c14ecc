// The words of a search: the charge of node v stands at 2v, and its steps at 2v + 1.
ghost use Rattle.std.specs.Prelude.{◌≡◌};
ghost use Rattle.near.specs.Near.{NearRoom};
ghost use Rattle.search.specs.Keep.{is_near, KeptNear};
ghost use Rattle.search.specs.Seeding.{SeedReady, Seeded};

use near::{Cost, INFINITY};

// No node is reached but the start, at cost 0.
pub fn seed(words: &mut [u32], nodes: usize, start: usize)
    requires { SeedReady nodes start words.old }
    ensures { Seeded nodes start words.old words.new }
{
    words[..2 * nodes].fill(INFINITY);
    queue::lower(words, nodes, start, 0, 0);
}

// Nodes that are charged more than the cost, or have more steps, become unreached, and the queue goes: what is left of the others is their costs.
pub fn keep_near(words: &mut [u32], nodes: usize, best: Option<Cost>)
    requires { NearRoom nodes words.old }
    ensures { KeptNear nodes best words.old words.new }
{
    for v in 0..nodes {
        let charge = queue::charge_of(words, v);
        let steps = queue::steps_of(words, v);
        let near = is_near(charge, steps, best);
        words[2 * v] = if near { charge } else { INFINITY };
        words[2 * v + 1] = if near { steps } else { INFINITY };
    }
}

// Whether a node of this cost is reached, and no dearer and no farther than the best.
fn is_near(charge: u32, steps: u32, best: Option<Cost>) -> bool
    ensures { result ≡ is_near charge steps best }
{
    if charge == INFINITY {
        return false;
    }
    match best {
        None => true,
        Some(cost) => charge <= cost.charge && steps <= cost.steps,
    }
}
