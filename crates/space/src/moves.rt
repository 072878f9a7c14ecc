// The moves that can be made, and where they lead.
ghost use Rattle.std.specs.Prelude.{◌≡◌, ◌<◌, get_or};
ghost use Rattle.space.specs.Images.{LastAtMost};
ghost use Rattle.space.specs.Moves.{NextReady, NextDone};

use regions::Region;
use rules::RULES;

// "A move is passed over at the first of its conditions, or the target's, that fails": the first, from the move `from` on along the moves of its
// mode, that is not passed over. In the move's row of the rules the target's conditions are joined to its own: two for each timer, a lowest place and
// one that is not reached. The contract speaks of every table whose rules these are.
pub fn next_move(
    rules: &[u8; RULES],
    halves: [u8; Region::MOST_TIMERS],
    from: Option<usize>,
) -> Option<usize>
    requires { NextReady rules.now from }
    ensures { NextDone rules.now halves from result }
{
    let mut next = from;
    'moves: while let Some(e) = next {
        for timer in 0..Region::MOST_TIMERS {
            if !rules::inside(rules, rules::GUARDS + e, timer, halves[timer]) {
                next = rules::after(rules, e);
                continue 'moves;
            }
        }
        return Some(e);
    }
    None
}

// The last of the prices 0 to `last` that is at most the bound. The prices rise from 0: the first one ends the loop, where one over a range would
// compare numbers of 64 bits in each turn, too.
pub fn last_at_most(prices: [u32; Region::MOST_CORNERS], last: usize, bound: usize) -> usize
    requires { (last < 4) × (get_or prices 0 0 ≡ 0) }
    ensures { LastAtMost prices last bound result }
{
    let mut i = last;
    while bound < prices[i] as usize {
        i -= 1;
    }
    i
}

// What resets do is found once for each of the eight reset bytes, and kept in an array. There this stands for a byte of which it was not found yet: no
// image has more than 24 bits. Eight options would take twice the stack.
pub const NO_IMAGE: u32 = 0xFFFF_FFFF;
