// `read: TABLE`: the counts, the goal and E of the table that the reader takes the bytes for.

use crate::print;
use regions::nodes;
use table::Table;

pub fn read(rt: &impl Print, table: &Table) {
    let counts = [table.modes(), table.timers(), table.moves(), table.goal()];
    print::filled(rt, b"modes A timers B moves C goal D", counts);
    // E, or that it is above 65,536.
    match nodes::node_count(table) {
        Some(nodes) => print::with(rt, b" nodes A\n", nodes),
        None => print::text(rt, b" too many nodes\n"),
    }
}
