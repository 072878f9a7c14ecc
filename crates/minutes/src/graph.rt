// The graph of a table's states, with all that who goes along its edges looks at.
ghost use Rattle.minutes.specs.Settings.{Setting};

use rules::RULES;
use states::States;
use table::Table;

// A table, its rules, and how its states are numbered.
#[derive(Drop)]
pub struct MinuteGraph<'a> {
    pub states: States,
    pub table: &'a Table,
    pub rules: &'a [u8; RULES],
    pub ghost setting: { Setting table.now.bytes rules.now states },
}
