//! The lines of variables.

ghost use Rattle.std.specs.Prelude.{◌≡◌, ◌++◌, IfOk, OnOk, flat_map};
ghost use Rattle.bit_domain.specs.Mixes.{IsDomInRange};
ghost use Rattle.domain_laws.specs.Left.{declared_dom};
ghost use Rattle.domain_text.specs.Domains.{dom_text, domain_line, domain_text, named_line};

use crate::sets::push_dom;
use bit_domain::{Dom, MixOf};
use constraint_model::{FznModel, Output, Term};
use memory::NoMemory;
use std::alloc::{AllocError, Global};

/// The text of domains: a line for each output of the model that is a variable by itself.
pub(crate) fn print_domains(
    alloc: Global,
    model: &FznModel,
    mix: &MixOf,
) -> Result<Vec<u8>, NoMemory>
    ensures { IfOk result (λ text. text.items ≡ domain_text model.now mix.now) }
{
    let mut text = Vec::new(alloc);
    push_lines(&mut text, model.output.as_slice(), mix)?;
    Ok(text)
}

/// Adds the lines of outputs.
fn push_lines(text: &mut Vec<u8>, outputs: &[Output], mix: &MixOf) -> Result<(), AllocError>
    ensures { OnOk result (text.new.items ≡ text.old.items ++ flat_map (domain_line mix.now) outputs.now) }
{
    for output in outputs {
        push_line(text, output, mix)?;
    }
    Ok(())
}

/// Adds the line of an output.
fn push_line(text: &mut Vec<u8>, output: &Output, mix: &MixOf) -> Result<(), AllocError>
    ensures { OnOk result (text.new.items ≡ text.old.items ++ domain_line mix.now output.now) }
{
    match output {
        Output::Scalar { name, value, .. } => push_variable(text, name.as_slice(), *value, mix),
        Output::Array { .. } => Ok(()),
    }
}

/// Adds the line of a variable of this name; nothing for a number.
fn push_variable(text: &mut Vec<u8>, name: &[u8], term: Term, mix: &MixOf) -> Result<(), AllocError>
    ensures { OnOk result (text.new.items ≡ text.old.items ++ named_line mix.now name.now term) }
{
    match term {
        Term::Var(v) => {
            text.extend_from_slice(name)?;
            text.extend_from_slice(b": ")?;
            push_dom(text, declared_dom(mix, v))?;
            text.extend_from_slice(b";\n")
        }
        Term::Number(_) => Ok(()),
    }
}

/// The domain of a declared variable; of one that isn't declared the number 0 alone.
#[tactic(auto, using(std::proofs::lemmas::List::get_or_past))]
fn declared_dom(mix: &MixOf, v: u32) -> Dom
    ensures value { result ≡ declared_dom mix.now v }
    ensures in_range { IsDomInRange result }
{
    if (v as u64) + 1 < mix.len() as u64 {
        mix.dom(v + 1)
    } else {
        Dom::Pair { low: 0, high: 0 }
    }
}
