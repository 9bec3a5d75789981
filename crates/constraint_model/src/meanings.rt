//! The meaning of a name or of an argument.

use crate::entries::Entries;
use crate::model::Term;
use shared_list::SharedList;

/// A boolean or an integer, constant or variable.
#[derive(Debug, Clone, Copy)]
pub struct Scalar {
    /// Whether it is a boolean.
    pub is_bool: bool,
    /// Its number, or its variable.
    pub term: Term,
}

/// The meaning of an array.
#[derive(Drop)]
pub struct Array {
    /// Its entries.
    pub entries: Entries,
    /// Its place among the declared arrays, where it is one of them.
    pub number: Option<usize>,
}

/// The meaning of a name or of an expression.
#[derive(Drop)]
pub enum Meaning {
    /// A boolean or an integer.
    One(Scalar),
    /// An array of these.
    Row(Array),
    /// A set of integers, as its sorted greatest ranges.
    Set(SharedList<(i64, i64)>),
}
