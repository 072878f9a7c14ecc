// Layer 3: the goal's own cost, read off the words of a search.
#![tactic(auto)]

ghost use Rattle.near.specs.Near.{BestRoom, IsBest};

// An unreached node has this in both of its words, which are memory that `searched` speaks of: no option.
pub const INFINITY: u32 = 0xFFFF_FFFF;

// A charge and a number of steps.
#[derive(Clone, Copy, Debug, PartialEq, Eq)]
pub struct Cost {
    pub charge: u32,
    pub steps: u32,
}

// The least cost of the goal's nodes, if one is reached.
pub fn best(words: &[u32], nodes: usize, goal: usize, modes: usize) -> Option<Cost>
    requires { BestRoom nodes modes words.now }
    ensures { IsBest nodes goal modes words.now result }
{
    let mut charge = INFINITY;
    let mut steps = INFINITY;
    if goal < modes {
        // The unit's core divides and multiplies in 32 bits.
        let share = (nodes as u32 / modes as u32) as usize;
        let first = (goal as u32 * share as u32) as usize;
        for v in first..first + share {
            let c = words[2 * v];
            if c < charge {
                charge = c;
                steps = words[2 * v + 1];
            } else if c == charge {
                steps = steps.min(words[2 * v + 1]);
            }
        }
    }
    if charge < INFINITY {
        Some(Cost { charge, steps })
    } else {
        None
    }
}
