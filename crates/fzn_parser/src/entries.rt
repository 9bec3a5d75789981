//! Reads lists: entries with commas between, up to a closing bracket.

ghost use Rattle.std.specs.Prelude.{◌≡◌, IfOk, Some, None};
ghost use Rattle.fzn_parser.specs.Terminals.{Read};
ghost use Rattle.fzn_parser.specs.Reading.{list_until};

use crate::cursor::{Cursor, Stop, Symbol};
use list_of::ListOf;
use std::alloc::Global;

/// What a list may have as its entries.
pub(crate) trait Entry: Sized + Drop {
    // what is read as an entry
    ghost at: { Read Self };

    /// The entry that comes next.
    fn read(alloc: Global, cursor: &mut Cursor) -> Result<Self, Stop>
        ensures read { IfOk result (λ e. at cursor.old ≡ Some (e, cursor.new)) }
        ensures refused { result ≡ Err Stop.Refused → at cursor.old ≡ None };
}

/// The entries of a list, behind its opening bracket, and the closing one.
pub(crate) fn read_list<E: Entry>(
    alloc: Global,
    cursor: &mut Cursor,
    close: Symbol,
) -> Result<ListOf<E>, Stop>
    ensures read { IfOk result (λ l. list_until close E.at cursor.old ≡ Some (l, cursor.new)) }
    ensures refused { result ≡ Err Stop.Refused → list_until close E.at cursor.old ≡ None }
{
    let mut list = ListOf::new(alloc);
    if cursor.take(close) {
        return Ok(list);
    }
    let most = cursor.len();
    for _turn in 0..most {
        let entry = E::read(alloc, cursor)?;
        list.push(entry)?;
        if !cursor.continues(close)? {
            return Ok(list);
        }
    }
    Err(Stop::Refused)
}
