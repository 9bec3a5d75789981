//! What the definitions say by themselves, as calls that do nothing.

ghost use Rattle.std.specs.Prelude.{◌≡◌, ℕ, List};
ghost use Rattle.solver_top.specs.MadeTexts.{MadeLinesSayLeast, MadeTextsHaveModels, MadeTextsHaveNoFault};
ghost use Rattle.command_line.specs.declared.words.Options.{Options};
ghost use Rattle.solver_top.specs.Answers.{AreDomainsOf, HasNoLimit, IsAnswerOf, IsLineOf, OneLimitedText, OneLimitedLine};

use answer::{law_one_finished, law_one_limited_answer, law_unfinished_marks};
use domain_text::law_one_domain_text;
use fzn_model::law_well_formed;
use made_laws::law_made_has_a_model;
use model_text::law_one_text;

/// The made texts have models and no faults, so none is refused; and where no limit is set the line of each says the least cost
/// of its model, and never that it is unknown. It does nothing.
pub fn law_made_is_answered()
    ensures model { MadeTextsHaveModels }
    ensures no_fault { MadeTextsHaveNoFault }
    ensures line { MadeLinesSayLeast }
{
    law_one_text();
    law_made_has_a_model();
    law_unfinished_marks();
}

/// Where no limit is set a text has at most one answer, whichever workers, lanes and parts search for it, and a made text has
/// one line; under limits so it is to one depth, where none is set on rounds or one lane propagates, and where the model has no
/// objective or one worker searches; and the domains that propagation leaves of a text are one text. It does nothing.
pub fn law_one_answer()
    ensures answer { (o p : Options) (text bytes others : List ℕ) → HasNoLimit o → HasNoLimit p → o.all ≡ p.all → IsAnswerOf o text bytes → IsAnswerOf p text others → bytes ≡ others }
    ensures line { (o p : Options) (n : ℕ) (text bytes others : List ℕ) → HasNoLimit o → HasNoLimit p → o.all ≡ p.all → IsLineOf o n text bytes → IsLineOf p n text others → bytes ≡ others }
    ensures limited { OneLimitedText }
    ensures limited_line { OneLimitedLine }
    ensures domains { (text bytes others : List ℕ) → AreDomainsOf text bytes → AreDomainsOf text others → bytes ≡ others }
{
    law_one_text();
    law_well_formed();
    law_one_finished();
    law_one_limited_answer();
    law_unfinished_marks();
    law_one_domain_text();
}
