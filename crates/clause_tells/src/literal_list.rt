//! Where the literals of a clause stand.

ghost use Rattle.std.specs.Prelude.{◌≡◌, ◌<◌, ◌==◌, length, slice_index_or, IfSome};
ghost use Rattle.clause_tells.specs.Literals.{literals, literals_by_sign};

use shared_list::SharedList;
use std::marker::Model;
use tells::Lit;

/// The literals of a clause in order, seen by contracts as exactly their list.
#[derive(Drop)]
pub struct Literals {
    form: Form,
}

/// Where literals stand.
#[derive(Drop)]
enum Form {
    /// Each with its sign.
    Listed(SharedList<Lit>),
    /// By the variables of the positive ones, and behind them those of the negative ones. So clauses of the same array
    /// share its list of variables.
    BySign(SharedList<u32>, SharedList<u32>),
}

impl Model for Literals {
    ghost use Rattle.std.specs.Prelude.{List};
    ghost use Rattle.tells.specs.declared.tell.Lit.{Lit};

    ghost Value = { List Lit };

    ghost use Rattle.clause_tells.specs.Literals.{literals};

    ghost view = { λ l. literals l.form };
}

/// The literal at a place of those by sign.
fn literal_by_sign(positives: &[u32], negatives: &[u32], place: usize) -> Lit
    requires { place < length (literals_by_sign positives.now negatives.now) }
    ensures { result ≡ slice_index_or (literals_by_sign positives.now negatives.now) place result }
{
    if place < positives.len() {
        Lit {
            var: positives[place],
            positive: true,
        }
    } else {
        Lit {
            var: negatives[place - positives.len()],
            positive: false,
        }
    }
}

impl Literals {
    /// These literals.
    pub fn from_list(lits: SharedList<Lit>) -> Literals
        ensures { result ≡ lits }
    {
        Literals {
            form: Form::Listed(lits),
        }
    }

    /// The positive literals of the first variables, and behind them the negative ones of the second.
    pub fn by_sign(positives: SharedList<u32>, negatives: SharedList<u32>) -> Literals
        ensures { result ≡ literals_by_sign positives negatives }
    {
        Literals {
            form: Form::BySign(positives, negatives),
        }
    }

    /// The variables of the positive literals and of the negative ones behind them, where the literals stand so.
    pub fn variables_by_sign(&self) -> Option<(&SharedList<u32>, &SharedList<u32>)>
        ensures { IfSome result (λ parts. self.now ≡ literals_by_sign parts.0.now parts.1.now) }
    {
        match &self.form {
            Form::Listed(_) => None,
            Form::BySign(positives, negatives) => Some((positives, negatives)),
        }
    }

    /// How many literals there are.
    pub fn len(&self) -> usize
        ensures { result ≡ length self.now }
    {
        match &self.form {
            Form::Listed(lits) => lits.len(),
            Form::BySign(positives, negatives) => {
                positives.as_slice().len() + negatives.as_slice().len()
            }
        }
    }

    /// Whether there are none.
    pub fn is_empty(&self) -> bool
        ensures { result ≡ (length self.now == 0) }
    {
        self.len() == 0
    }

    /// The literal at this place.
    pub fn at(&self, place: usize) -> Lit
        requires { place < length self.now }
        ensures { result ≡ slice_index_or self.now place result }
    {
        match &self.form {
            Form::Listed(lits) => lits.as_slice()[place],
            Form::BySign(positives, negatives) => {
                literal_by_sign(positives.as_slice(), negatives.as_slice(), place)
            }
        }
    }
}
