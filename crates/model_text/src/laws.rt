//! What the definitions say by themselves, as calls that do nothing.

ghost use Rattle.std.specs.Prelude.{◌≡◌, ◌⊎◌, ℕ, List};
ghost use Rattle.constraint_model.specs.declared.model.FznModel.{FznModel};
ghost use Rattle.model_text.specs.Texts.{IsTextOf, IsFaultOf};
ghost use Rattle.model_text.specs.Files.{LongHasFault};

use fzn_lexer::law_one_reading as law_one_lexing;
use fzn_model::law_one_model;
use fzn_parser::laws::law_one_reading as law_one_parsing;

/// Every text has one model or one fault, and never both. It does nothing.
pub fn law_one_text()
    ensures some { (text : List ℕ) → ((m : FznModel) × IsTextOf text m) ⊎ ((k : ℕ) × ((at : ℕ) × IsFaultOf text k at)) }
    ensures one_model { (text : List ℕ) (m n : FznModel) → IsTextOf text m → IsTextOf text n → m ≡ n }
    ensures one_fault { (text : List ℕ) (k l at place : ℕ) → IsFaultOf text k at → IsFaultOf text l place → (k ≡ l) × (at ≡ place) }
    ensures never_both { (text : List ℕ) (m : FznModel) (k at : ℕ) → IsTextOf text m → IsFaultOf text k at → ⊥ }
{
    law_one_lexing();
    law_one_parsing();
    law_one_model();
}

/// A text that is too long has that fault, on line 0. It does nothing.
pub fn law_long_text()
    ensures { LongHasFault }
{}
