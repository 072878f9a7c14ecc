// The graph of a table's corners, with all that who goes along its edges looks at.
ghost use Rattle.space.specs.Space.{Setting};

use crate::Space;
use rules::RULES;
use table::Table;

// A table, its rules, and how its nodes are numbered.
#[derive(Drop)]
pub struct CornerGraph<'a> {
    pub space: Space,
    pub table: &'a Table,
    pub rules: &'a [u8; RULES],
    pub ghost setting: { Setting table.now.bytes rules.now space },
}
