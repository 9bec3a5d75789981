//! What propagation alone leaves of the domains of a model's variables.

ghost use Rattle.std.specs.Prelude.{◌≤◌, ◌≡◌, IfOk};
ghost use Rattle.constraint_model.specs.WellFormed.{IsWellFormed};
ghost use Rattle.decompose.specs.Kernels.{kernels_of};
ghost use Rattle.mix_rounds.specs.Ends.{HasPropagatedMix};
ghost use Rattle.fzn_print.specs.AnswerText.{mark_text_of};
ghost use Rattle.fzn_print.specs.declared.marks.Mark.TheVariants.{Unsatisfiable};
ghost use Rattle.domain_laws.specs.Left.{start_mix, AreLeft};
ghost use Rattle.domain_text.specs.Domains.{IsDomainText};

use crate::lines::print_domains;
use bit_domain::MixOf;
use constraint_model::FznModel;
use decompose::compile;
use domain_laws::law_solutions_are_left;
use fzn_print::{Mark, mark_text};
use gate::Gate;
use memory::NoMemory;
use mix_rounds::{PropagatedMix, propagate_mix};
use rounds::even_cut;
use std::alloc::Global;
use std::thread::Threads;

/// The text of the domains that propagation by so many lanes, 1 to 64, leaves for the variables of a model, outside which no
/// solution lies; where it leaves none, the mark that there is no solution, and there is none. Errors: memory.
pub fn domains_of<R: Threads + Sync, G: Gate + Sync>(
    rt: &R,
    alloc: Global,
    model: &FznModel,
    lanes: u32,
    gate: &G,
) -> Result<Vec<u8>, NoMemory>
    requires model { IsWellFormed model.now }
    requires some_lanes { 1 ≤ lanes }
    requires most_lanes { lanes ≤ 64 }
    ensures { IfOk result (λ text. IsDomainText model.now text.items) }
{
    law_solutions_are_left();
    match propagated(rt, alloc, model, lanes, gate)? {
        PropagatedMix::Fixed { mix, .. } => print_left(alloc, model, &mix),
        PropagatedMix::Failed { .. } => mark_alone(alloc),
    }
}

/// The text of the domains that are left, outside which no solution lies.
fn print_left(alloc: Global, model: &FznModel, mix: &MixOf) -> Result<Vec<u8>, NoMemory>
    requires model { IsWellFormed model.now }
    requires left { AreLeft model.now mix.now }
    ensures { IfOk result (λ text. IsDomainText model.now text.items) }
{
    law_solutions_are_left();
    print_domains(alloc, model, mix)
}

/// How propagation ends from the start of a model's program.
#[tactic(auto, unfolding(shared_lanes::specs::Cuts::share_limit))]
fn propagated<R: Threads + Sync, G: Gate + Sync>(
    rt: &R,
    alloc: Global,
    model: &FznModel,
    lanes: u32,
    gate: &G,
) -> Result<PropagatedMix, NoMemory>
    requires model { IsWellFormed model.now }
    requires some_lanes { 1 ≤ lanes }
    requires most_lanes { lanes ≤ 64 }
    ensures { IfOk result (HasPropagatedMix (kernels_of model.now) (start_mix model.now)) }
{
    let program = compile(alloc, model)?;
    let kernels = program.kernels.as_slice();
    let start = MixOf::from_box(alloc, &program.start)?;
    let cut = even_cut(alloc, kernels, lanes)?;
    propagate_mix(rt, alloc, &start, kernels, &cut, gate)
}

/// The mark that there is no solution.
fn mark_alone(alloc: Global) -> Result<Vec<u8>, NoMemory>
    ensures { IfOk result (λ text. text.items ≡ mark_text_of Unsatisfiable) }
{
    Ok(Vec::from_slice(alloc, mark_text(Mark::Unsatisfiable).as_bytes())?)
}
