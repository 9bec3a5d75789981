//! The names that an item declares.

ghost use Rattle.std.specs.Prelude.{◌≡◌};
ghost use Rattle.fzn_parser.specs.Items.{what_tree};
ghost use Rattle.fzn_model.specs.Drafts.{declares_again};
ghost use Rattle.fzn_model.specs.Faults as faults;

use crate::exprs::spelling;
use crate::scope::Scope;
use fzn_lexer::Token;
use fzn_parser::tree::What;

/// Whether the name was declared.
pub(crate) fn is_declared(text: &[u8], scope: &Scope, name: Token) -> bool
    ensures { result ≡ faults.is_declared text.now scope.now name }
{
    scope.contains(spelling(text, &name))
}

/// Whether the item declares a name that an earlier item declared.
pub(crate) fn declares_again(text: &[u8], scope: &Scope, what: &What) -> bool
    ensures { result ≡ declares_again text.now scope.now (what_tree what.now) }
{
    match what {
        What::Scalar { name, .. } | What::Array { name, .. } => is_declared(text, scope, *name),
        What::Predicate(_) | What::Constraint { .. } | What::Solve { .. } => false,
    }
}
