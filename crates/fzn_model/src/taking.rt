//! The model of items that come one by one.

ghost use Rattle.std.specs.Prelude.{◌≡◌, ℕ, List, [], ◌∷◌, ◌++◌, MatchResult, OnOk, IfErr};
ghost use Rattle.fzn_parser.specs.Parsing.{ItemTree, item_tree};
ghost use Rattle.fzn_model.specs.Resolving.{IsModelOf, IsCause};
ghost use Rattle.fzn_model.specs.Taking.{AreTaken, CanTake};

use crate::draft::Draft;
use crate::resolving::{ModelError, finished, stopped};
use constraint_model::FznModel;
use fzn_parser::tree::Item;
use std::alloc::Global;
use std::marker::Model;

/// The state of a model after those items of its text that were taken. Contracts see what these items make.
#[derive(Drop)]
pub struct Resolver {
    draft: Draft,
}

impl Model for Resolver {
    ghost use Rattle.fzn_model.specs.Effects.{Reading};
    ghost use Rattle.fzn_model.specs.Drafts.{seen};

    ghost Value = { Reading };

    ghost view = { λ r. seen r.draft };
}

impl Resolver {
    /// Before the first item of this text. It takes no memory.
    pub fn new(alloc: Global, text: &[u8]) -> Resolver
        ensures { (other : List ℕ) → AreTaken other [] result }
    {
        Resolver {
            draft: Draft::new(alloc, text),
        }
    }

    /// Takes the next item of `text`. Errors: the least fault that it has after the items before it; memory.
    pub fn take(&mut self, alloc: Global, text: &[u8], item: &Item) -> Result<(), ModelError>
        requires { CanTake text.now self.old }
        ensures taken { (items : List ItemTree) → AreTaken text.now items self.old → OnOk result (AreTaken text.now (items ++ item_tree item.now ∷ []) self.new) }
        ensures cause { (items more : List ItemTree) → AreTaken text.now items self.old → IfErr result (IsCause text.now (items ++ item_tree item.now ∷ more)) }
    {
        match self.draft.add(alloc, text, item) {
            Ok(()) => {}
            Err(stop) => return Err(stopped(stop, item.from)),
        }
        Ok(())
    }

    /// The model of the items of `text`, which were all taken. Errors: that none was a solve item.
    pub fn finish(self, text: &[u8]) -> Result<FznModel, ModelError>
        ensures { (items : List ItemTree) → AreTaken text.now items self → MatchResult result (λ m. IsModelOf text.now items m) (λ e. IsCause text.now items e) }
    {
        finished(self.draft, text.len())
    }
}
