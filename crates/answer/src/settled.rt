//! Whether the best solution of the search for the least cost is known to be the first that costs so much.

ghost use Rattle.std.specs.Prelude.{◌≡◌};
ghost use Rattle.std.specs.Bool.{OnTrue, OnFalse};
ghost use Rattle.answer.specs.Parts.{whole_tree};
ghost use Rattle.answer.specs.Settled.{IsSettled};

use crate::options::Options;
use constraint_model::FznModel;
use first_keys::is_static;
use tree_cover::Part;

/// Whether the one part is the whole tree.
fn is_whole(parts: &[Part]) -> bool
    ensures whole { OnTrue result (parts.now ≡ whole_tree) }
    ensures cut { OnFalse result (parts.now ≡ whole_tree → ⊥) }
{
    match parts {
        [part] => part.depth == 0 && part.number == 0,
        _ => false,
    }
}

/// Whether one search, which no limit can stop, goes over the whole tree in such an order: of those that cost as much as its
/// best solution it met that one first.
pub(crate) fn is_settled(model: &FznModel, options: Options, parts: &[Part]) -> bool
    ensures settled { OnTrue result (IsSettled model.now options parts.now) }
    ensures open { OnFalse result (IsSettled model.now options parts.now → ⊥) }
{
    is_whole(parts) && options.node_limit == 0 && options.round_limit == 0 && is_static(model)
}
