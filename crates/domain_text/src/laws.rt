//! The laws of the domains that are left. A law does nothing: its contract is what it says.

ghost use Rattle.domain_text.specs.Domains.{OneDomainText};

use domain_drops::law_inside_mix_order;

/// A model has one text of the domains that are left.
pub fn law_one_domain_text()
    ensures { OneDomainText }
{
    law_inside_mix_order();
}
