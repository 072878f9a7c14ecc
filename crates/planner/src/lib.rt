// The planner for C and Rust: the calls of `route`, `timetable`, `writer` and `form` with their answers in plain numbers. include/planner.h is the page for their callers.
#![tactic(auto)]

ghost use Rattle.std.specs.Prelude.{◌≡◌, length};
ghost use Rattle.route.specs.Plan.{outcome, planned};
ghost use Rattle.route.specs.Promise.{KeepsDemand};
ghost use Rattle.route.specs.Lend.{needed, Enough};
ghost use Rattle.timetable.specs.Timetabled.{outcome as Timetabled·outcome, timetabled};
ghost use Rattle.timetable.specs.Promise.{KeepsTimetable};
ghost use Rattle.form.specs.Filled.{outcome as Filled·outcome, filled};
ghost use Rattle.writer.specs.Written.{outcome as Written·outcome, written, Lays};
ghost use Rattle.planner.specs.Numbers.{decoded, decoded_timetable, decoded_needs, decoded_written, decoded_verdict, number_of, charge_after, count_after, Untouched};

use form::FORM;
use near::Cost;
use table::refusals::Refusal;

// The numbers that C knows what was asked for and no route by. A refusal is known by its own: 1 to 12.
const OK: u8 = 0;

const NO_ROUTE: u8 = 255;

// Tells an answer by its number. A charge and a number of steps or pairs go through the last two parameters; other answers leave those alone.
fn tell(answer: Result<Option<Cost>, Refusal>, charge: &mut u32, count: &mut usize) -> u8
    ensures number { result ≡ number_of answer }
    ensures charge { charge.new ≡ charge_after answer charge.old }
    ensures count { count.new ≡ count_after answer count.old }
{
    match answer {
        Ok(Some(cost)) => {
            *charge = cost.charge;
            *count = cost.steps as usize;
            OK
        }
        Ok(None) => NO_ROUTE,
        Err(refusal) => u8::from(refusal),
    }
}

// Plans the table that the bytes are, with the memory lent for the search and for the route. A route's charge and number of steps
// go through the last two parameters; other answers leave those alone.
#[unsafe(no_mangle)]
pub extern "C" fn planner_plan(
    table: &[u8],
    words: &mut [u32],
    route: &mut [u8],
    charge: &mut u32,
    steps: &mut usize,
) -> u8
    ensures outcome { outcome (decoded result charge.new steps.new) words.new route.new
        ≡ planned table.now words.old route.old }
    ensures charge { Untouched result charge.old charge.new }
    ensures steps { Untouched result steps.old steps.new }
    ensures demand { KeepsDemand table.now (length words.old) route.new (decoded result charge.new steps.new) }
{
    tell(route::plan(table, words, route), charge, steps)
}

// Gives the timetable of the table that the bytes are, with the memory lent for the search and for the pairs. Its charge and number of pairs
// go through the last two parameters; other answers leave those alone.
#[unsafe(no_mangle)]
pub extern "C" fn planner_timetable(
    table: &[u8],
    words: &mut [u32],
    route: &mut [u8],
    charge: &mut u32,
    pairs: &mut usize,
) -> u8
    ensures outcome { Timetabled·outcome (decoded_timetable result charge.new pairs.new) words.new route.new
        ≡ timetabled table.now words.old route.old }
    ensures charge { Untouched result charge.old charge.new }
    ensures pairs { Untouched result pairs.old pairs.new }
    ensures promise { KeepsTimetable table.now words.old route.new (decoded_timetable result charge.new pairs.new) }
{
    tell(timetable::timetable(table, words, route), charge, pairs)
}

// Says how much to lend for planning the table that the bytes are. The words that are needed and the route bytes that are enough go through the last
// two parameters; a refusal leaves those alone.
#[unsafe(no_mangle)]
pub extern "C" fn planner_lend(table: &[u8], need: &mut usize, room: &mut usize) -> u8
    ensures needs { decoded_needs result need.new room.new ≡ needed table.now }
    ensures need { Untouched result need.old need.new }
    ensures room { Untouched result room.old room.new }
    ensures promise { Enough table.now (decoded_needs result need.new room.new) }
{
    match route::lend(table) {
        Ok(memory) => {
            *need = memory.words;
            *room = memory.route;
            OK
        }
        Err(refusal) => u8::from(refusal),
    }
}

// Writes the table that a form says into the destination. The number of its bytes goes through the last parameter; a refusal leaves that alone.
#[unsafe(no_mangle)]
pub extern "C" fn planner_write(form: &[u8; FORM], destination: &mut [u8], size: &mut usize) -> u8
    ensures outcome { Written·outcome (decoded_written result size.new) destination.new ≡ written form.now destination.old }
    ensures layout { Lays form.now (decoded_written result size.new) destination.new }
    ensures size { Untouched result size.old size.new }
{
    match writer::write(form, destination) {
        Ok(n) => {
            *size = n;
            OK
        }
        Err(refusal) => u8::from(refusal),
    }
}

// Fills a form with the fields of the table that the bytes are; a refusal leaves the form alone.
#[unsafe(no_mangle)]
pub extern "C" fn planner_read(table: &[u8], form: &mut [u8; FORM]) -> u8
    ensures { Filled·outcome (decoded_verdict result) form.new ≡ filled table.now form.old }
{
    match form::fill(table, form) {
        Ok(()) => OK,
        Err(refusal) => u8::from(refusal),
    }
}
