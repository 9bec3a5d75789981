//! The laws of nogoods. A law does nothing: its contract is what it says.

ghost use Rattle.nogoods.specs.Laws.{NogoodLaws};

use guarded_tell::law_monotone;
use interval::law_inside_order;
use literals::law_literals;

/// How nogoods go with spaces and boxes, and what a kernel's tells imply.
pub fn law_nogoods()
    ensures { NogoodLaws }
{
    law_inside_order();
    law_literals();
    law_monotone();
}
