// The text that `plan` prints.
#![tactic(auto)]

ghost use Rattle.std.specs.Prelude.{ℕ, ◌+◌, ◌≤◌, ◌≡◌, List, ◌++◌, [], length, take};
ghost use Rattle.io.specs.Counts.{IsPrefixLen};
ghost use Rattle.route.specs.Answers.{Refused, Route, told as route_told};
ghost use Rattle.report.specs.Lines.{decimal, step_texts};
ghost use Rattle.report.specs.Lines.{lines as Lines·lines};
ghost use Rattle.report.specs.Destination.{told, room, overwritten, filled, lines_into};
ghost use Rattle.report.specs.Text.{printed, kept};
ghost use Rattle.report.specs.Put.{Put};

use near::Cost;
use table::refusals::Refusal;

// "lends 6,000 words and 256 route bytes".
const WORDS: usize = 6000;

const ROUTE: usize = 256;

// The longest lines but for their steps, and the longest text of a step: a blank and three digits.
const FRAME: usize = 24;

const STEP: usize = 4;

// The longest text that is printed.
pub const TEXT: usize = FRAME + STEP * ROUTE;

// An answer to be printed. It is no `Result`, since `lines` prints refusals of any number and routes of any number of steps.
#[derive(Clone, Copy, Debug, PartialEq, Eq)]
pub enum Answer {
    Refused(u8),
    NoRoute,
    Route(u32, usize),
}

impl From<Result<Option<Cost>, Refusal>> for Answer {
    ghost from_gives = { λ planned answer. told answer ≡ route_told planned };

    fn from(planned: Result<Option<Cost>, Refusal>) -> Answer {
        match planned {
            Ok(Some(cost)) => Answer::Route(cost.charge, cost.steps as usize),
            Ok(None) => Answer::NoRoute,
            Err(refusal) => Answer::Refused(u8::from(refusal)),
        }
    }
}

// Plans the table that the bytes are with the memory that the unit lends, puts what `plan` prints at the start of text, and says how many bytes it is.
pub fn plan_text(bytes: &[u8], text: &mut [u8; TEXT]) -> usize
    ensures within { IsPrefixLen result text.new }
    ensures count { result ≡ length (printed bytes.now) }
    ensures text { text.new ≡ overwritten (printed bytes.now) text.old }
    ensures kept { (rest : List ℕ) → kept ≤ length bytes.now → take result text.new ≡ printed (bytes.now ++ rest) }
{
    let mut words = [0u32; WORDS];
    let mut route = [0u8; ROUTE];
    let answer = route::plan(bytes, &mut words, &mut route);
    put_lines(Answer::from(answer), &route, text)
}

// Puts the lines of the answer at the start of out, and says how many bytes they are; None where out is too short. The route bytes begin with the route.
pub fn lines(answer: Answer, route: &[u8], out: &mut [u8]) -> Option<usize>
    ensures { filled result out.new ≡ lines_into (told answer) route.now out.old }
{
    if out.len() < FRAME || (out.len() - FRAME) / STEP < route.len() {
        return None;
    }
    Some(put_lines(answer, route, out))
}

// The same for a destination that has the room.
fn put_lines(answer: Answer, route: &[u8], out: &mut [u8]) -> usize
    requires { room (length route.now) ≤ length out.old }
    ensures { Put (Lines·lines (told answer) route.now) 0 out.old result out.new }
{
    match answer {
        Answer::Refused(n) => put_refusal(n, out),
        Answer::NoRoute => put_text(b"no route\n", 0, out),
        Answer::Route(charge, steps) => put_route(charge, route, steps, out),
    }
}

// The line of a refusal.
fn put_refusal(n: u8, out: &mut [u8]) -> usize
    requires { length (Lines·lines (Refused n) []) ≤ length out.old }
    ensures { Put (Lines·lines (Refused n) []) 0 out.old result out.new }
{
    let at = put_field(b"refused ", n as u64, 0, out);
    put_text(b"\n", at, out)
}

// The two lines of a route.
fn put_route(charge: u32, route: &[u8], steps: usize, out: &mut [u8]) -> usize
    requires { length (Lines·lines (Route charge steps) route.now) ≤ length out.old }
    ensures { Put (Lines·lines (Route charge steps) route.now) 0 out.old result out.new }
{
    let at = put_field(b"charge ", charge as u64, 0, out);
    let at = put_text(b"\nroute", at, out);
    let at = put_steps(route, steps, at, out);
    put_text(b"\n", at, out)
}

// Each of the first n route bytes behind a blank.
fn put_steps(route: &[u8], n: usize, at: usize, out: &mut [u8]) -> usize
    requires { at + length (step_texts (take n route.now)) ≤ length out.old }
    ensures { Put (step_texts (take n route.now)) at out.old result out.new }
{
    let mut next = at;
    for &byte in &route[..n.min(route.len())] {
        next = put_field(b" ", byte as u64, next, out);
    }
    next
}

// Words and a number.
fn put_field(words: &[u8], n: u64, at: usize, out: &mut [u8]) -> usize
    requires { at + length (words.now ++ decimal n) ≤ length out.old }
    ensures { Put (words.now ++ decimal n) at out.old result out.new }
{
    let next = put_text(words, at, out);
    put_number(n, next, out)
}

// A number in decimal.
fn put_number(n: u64, at: usize, out: &mut [u8]) -> usize
    requires { at + length (decimal n) ≤ length out.old }
    ensures { Put (decimal n) at out.old result out.new }
{
    let mut digits = [0u8; 20];
    let k = io::decimal(n, &mut digits);
    put_text(&digits[..k], at, out)
}

// Copies the text to out, from a place on, and answers the place behind it.
fn put_text(text: &[u8], at: usize, out: &mut [u8]) -> usize
    requires { at + length text.now ≤ length out.old }
    ensures { Put text.now at out.old result out.new }
{
    let end = at + text.len();
    out[at..end].copy_from_slice(text);
    end
}
