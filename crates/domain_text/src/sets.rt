//! The text of a domain.

ghost use Rattle.std.specs.Prelude.{◌≡◌, ◌<◌, ◌++◌, ◌+ℤ◌, pos, OnOk, flat_map, map};
ghost use Rattle.std.specs.Fmt.{signed_decimal};
ghost use Rattle.interval.specs.Limits.{IsBound};
ghost use Rattle.bit_domain.specs.declared.dom.Dom.TheVariants.{Bits};
ghost use Rattle.bit_domain.specs.Mixes.{values_from, IsDomInRange};
ghost use Rattle.fzn_print.specs.AnswerText.{comma, joined, range_text};
ghost use Rattle.domain_text.specs.Domains.{dom_text};

use bit_domain::{Dom, part_least};
use itoa::Buffer;
use std::alloc::AllocError;

/// Adds a domain.
pub(crate) fn push_dom(text: &mut Vec<u8>, dom: Dom) -> Result<(), AllocError>
    requires { IsDomInRange dom }
    ensures { OnOk result (text.new.items ≡ text.old.items ++ dom_text dom) }
{
    match dom {
        Dom::Bits { base, set } => push_set(text, base, set),
        Dom::Pair { low, high } => push_range(text, low, high),
    }
}

/// Adds the numbers of a set over a base, in braces.
fn push_set(text: &mut Vec<u8>, base: i64, set: u64) -> Result<(), AllocError>
    requires { IsDomInRange (Bits base set) }
    ensures { OnOk result (text.new.items ≡ text.old.items ++ dom_text (Bits base set)) }
{
    text.extend_from_slice(b"{")?;
    push_numbers(text, base, set)?;
    text.extend_from_slice(b"}")
}

/// Adds the numbers of a set over a base, rising, with a comma between each two.
fn push_numbers(text: &mut Vec<u8>, base: i64, set: u64) -> Result<(), AllocError>
    requires { IsDomInRange (Bits base set) }
    ensures { OnOk result (text.new.items ≡ text.old.items ++ joined comma (map signed_decimal (values_from base set))) }
{
    if set == 0 {
        return Ok(());
    }
    let (member, others) = part_least(set);
    push_member(text, base, member)?;
    push_others(text, base, others)
}

/// Adds the numbers of a set over a base, rising, each with a comma before it.
fn push_others(text: &mut Vec<u8>, base: i64, set: u64) -> Result<(), AllocError>
    requires { IsDomInRange (Bits base set) }
    ensures { OnOk result (text.new.items ≡ text.old.items ++ flat_map (λ z. comma ++ signed_decimal z) (values_from base set)) }
{
    let mut rest = set;
    while rest != 0 {
        let (member, others) = part_least(rest);
        text.extend_from_slice(b", ")?;
        push_member(text, base, member)?;
        rest = others;
    }
    Ok(())
}

/// Adds the number that is so far from a base.
fn push_member(text: &mut Vec<u8>, base: i64, member: u32) -> Result<(), AllocError>
    requires base { IsBound base }
    requires small { member < 64 }
    ensures { OnOk result (text.new.items ≡ text.old.items ++ signed_decimal (base +ℤ pos member)) }
{
    push_number(text, number_at(base, member))
}

/// The number that is so far from a base.
#[tactic(auto, unfolding(interval::specs::Limits::bound_limit, interval::specs::Limits::largest_number))]
fn number_at(base: i64, member: u32) -> i64
    requires base { IsBound base }
    requires small { member < 64 }
    ensures { result ≡ base +ℤ pos member }
{
    base + member as i64
}

/// Adds a range.
fn push_range(text: &mut Vec<u8>, low: i64, high: i64) -> Result<(), AllocError>
    ensures { OnOk result (text.new.items ≡ text.old.items ++ range_text (low, high)) }
{
    push_number(text, low)?;
    text.extend_from_slice(b"..")?;
    push_number(text, high)
}

/// Adds a number in decimal.
fn push_number(text: &mut Vec<u8>, number: i64) -> Result<(), AllocError>
    ensures { OnOk result (text.new.items ≡ text.old.items ++ signed_decimal number) }
{
    let mut buffer = Buffer::new();
    text.extend_from_slice(buffer.format(number).as_bytes())
}
