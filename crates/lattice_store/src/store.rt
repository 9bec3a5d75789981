//! The store: bounds in shared words.

ghost use Rattle.std.specs.Prelude.{◌≡◌, ◌<◌};

use crate::table::Table;

/// The bounds of some variables, shared by the seats of threads.
#[derive(Drop)]
pub struct Store {
    pub(crate) table: Table,
    ghost slots: { table.shared.table_id.slots ≡ 0 },
    ghost spare: { 0 < table.shared.table_id.words },
}

/// The store has opened its last epoch.
#[derive(Clone, Copy, PartialEq, Eq, Debug)]
pub struct Full;
