//! What a plain search refutes in many nodes is refuted in few by one that learns. A learner that never learns fails these tests,
//! since nothing is said to be refuted then.

ghost use Rattle.free_tests.specs.Models.{IsCompiled};

use crate::models::{Compiled, compile_text};
use crate::texts::{
    CLAUSES, CORE, CROWDED, DIFFERENT, ELEMENTS, EXTREMES, MACHINE, PIGEONS, PRODUCTS, SLACK,
    WIDER_MACHINE,
};
use free_search::{FreeEnd, Guide, root_of, run_free};
use gate::NoGate;
use interval::law_inside_order;
use memory::NoMemory;
use nogoods::Learner;
use search::Run;
use std::alloc::Global;
use std::test::Fail;
use std::thread::Threads;

/// More units of work than any of the searches spends.
const BUDGET: u64 = 1_000_000;

/// How a search ended, and after how many nodes.
#[derive(Clone, Copy, PartialEq, Eq, Debug)]
enum Ended {
    /// A solution was found.
    Found,
    /// It was refuted that there is one.
    Refuted(u64),
    /// Too much was spent.
    GaveUp,
}

/// Searches the model's root in a free order.
fn search<R: Threads + Sync>(
    rt: &R,
    alloc: Global,
    searched: &Compiled,
    budget: u64,
) -> Result<Ended, NoMemory>
    requires { IsCompiled searched.now.model searched.now.program searched.now.masks }
{
    law_inside_order();
    let run = Run {
        model: &searched.model,
        program: &searched.program,
        masks: &searched.masks,
        lanes: 1,
        node_limit: 0,
        round_limit: 0,
        gate: &NoGate,
    };
    let Some(root) = root_of(rt, alloc, &run)? else {
        return Ok(Ended::Refuted(1));
    };
    let mut learner = Learner::new(alloc, &root)?;
    let mut guide = Guide::new(alloc, &run)?;
    match run_free(
        rt,
        alloc,
        &run,
        &mut learner,
        &mut guide,
        &root,
        &root,
        budget,
    )? {
        FreeEnd::Found(_) => Ok(Ended::Found),
        FreeEnd::Refuted => Ok(Ended::Refuted(guide.nodes())),
        FreeEnd::GaveUp => Ok(Ended::GaveUp),
    }
}

/// The same of a text.
fn search_text<R: Threads + Sync>(
    rt: &R,
    alloc: Global,
    text: &str,
    budget: u64,
) -> Result<Ended, NoMemory> {
    let searched = compile_text(alloc, text)?;
    search(rt, alloc, &searched, budget)
}

/// Whether it was refuted in fewer nodes than so many.
fn is_refuted_below(ended: Ended, most: u64) -> bool {
    match ended {
        Ended::Refuted(nodes) => nodes < most,
        _ => false,
    }
}

#[test]
fn pigeons_are_refuted(rt: HostRuntime) -> Result<(), Fail> {
    // a plain search takes 47 nodes: nogoods save nothing here
    let ended = search_text(&rt, rt.alloc(), PIGEONS, BUDGET)?;
    assert!(rt; is_refuted_below(ended, 100));
    Ok(())
}

#[test]
fn what_is_free_is_not_tried_where_the_rest_fails(rt: HostRuntime) -> Result<(), Fail> {
    // a plain search takes 1,023 nodes
    let ended = search_text(&rt, rt.alloc(), CORE, BUDGET)?;
    assert!(rt; is_refuted_below(ended, 30));
    Ok(())
}

#[test]
fn terms_that_a_sum_has_room_for_are_not_tried(rt: HostRuntime) -> Result<(), Fail> {
    // a plain search takes 1,023 nodes
    let ended = search_text(&rt, rt.alloc(), SLACK, BUDGET)?;
    assert!(rt; is_refuted_below(ended, 30));
    Ok(())
}

#[test]
fn clauses_are_reasons(rt: HostRuntime) -> Result<(), Fail> {
    // a plain search takes 1,023 nodes
    let ended = search_text(&rt, rt.alloc(), CLAUSES, BUDGET)?;
    assert!(rt; is_refuted_below(ended, 30));
    Ok(())
}

#[test]
fn elements_are_reasons(rt: HostRuntime) -> Result<(), Fail> {
    // a plain search takes 1,023 nodes
    let ended = search_text(&rt, rt.alloc(), ELEMENTS, BUDGET)?;
    assert!(rt; is_refuted_below(ended, 30));
    Ok(())
}

#[test]
fn products_are_reasons(rt: HostRuntime) -> Result<(), Fail> {
    // a plain search takes 2,047 nodes
    let ended = search_text(&rt, rt.alloc(), PRODUCTS, BUDGET)?;
    assert!(rt; is_refuted_below(ended, 80));
    Ok(())
}

#[test]
fn extremes_are_reasons(rt: HostRuntime) -> Result<(), Fail> {
    // a plain search takes 4,095 nodes
    let ended = search_text(&rt, rt.alloc(), EXTREMES, BUDGET)?;
    assert!(rt; is_refuted_below(ended, 150));
    Ok(())
}

#[test]
fn all_different_is_a_reason(rt: HostRuntime) -> Result<(), Fail> {
    // a plain search takes 30,207 nodes
    let ended = search_text(&rt, rt.alloc(), DIFFERENT, BUDGET)?;
    assert!(rt; is_refuted_below(ended, 350));
    Ok(())
}

#[test]
fn a_resource_is_a_reason(rt: HostRuntime) -> Result<(), Fail> {
    // a plain search takes 6,143 nodes
    let ended = search_text(&rt, rt.alloc(), CROWDED, BUDGET)?;
    assert!(rt; is_refuted_below(ended, 150));
    Ok(())
}

#[test]
fn orders_on_a_machine_are_learned(rt: HostRuntime) -> Result<(), Fail> {
    // a plain search takes 9,727 nodes
    let ended = search_text(&rt, rt.alloc(), MACHINE, BUDGET)?;
    assert!(rt; is_refuted_below(ended, 250));
    Ok(())
}

#[test]
fn a_solution_is_found_where_there_is_one(rt: HostRuntime) -> Result<(), Fail> {
    let ended = search_text(&rt, rt.alloc(), WIDER_MACHINE, BUDGET)?;
    assert_eq!(rt; ended, Ended::Found);
    Ok(())
}

#[test]
fn a_search_that_may_spend_nothing_gives_up(rt: HostRuntime) -> Result<(), Fail> {
    let ended = search_text(&rt, rt.alloc(), MACHINE, 0)?;
    assert_eq!(rt; ended, Ended::GaveUp);
    Ok(())
}
