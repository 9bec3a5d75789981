//! Into which parts the search tree is cut.

ghost use Rattle.std.specs.Prelude.{◌≡◌, length, IfOk};
ghost use Rattle.std.specs.Bool.{OnTrue, OnFalse};
ghost use Rattle.answer.specs.Answers.{HasLimit};
ghost use Rattle.answer.specs.Parts.{ArePartsFor};
ghost use Rattle.answer.specs.Given.{IsSetUp};

use crate::options::Options;
use interval::BoxOf;
use memory::NoMemory;
use search::Run;
use std::alloc::Global;
use subproblem_walk::Tree;
use tree_cover::{Part, law_parts_to};
use tree_cutter::{parts_by_volume, parts_to_depth};

/// No part lies deeper.
const DEEPEST: u32 = 62;

/// Whether a limit is set.
fn has_limit(options: Options) -> bool
    ensures limit { OnTrue result (HasLimit options) }
    ensures none { OnFalse result (HasLimit options → ⊥) }
{
    options.node_limit != 0 || options.round_limit != 0
}

/// The parts of the tree below a box that are searched, each by itself. Under a limit, which stops each part by itself, they are
/// all those of one depth, so that what is stopped doesn't depend on how big they are. Without limits they are cut where the
/// boxes are biggest; where one worker searches the whole tree is the one part, since more would only cost time. Errors: memory.
pub(crate) fn parts_of<L>(
    alloc: Global,
    run: &Run<'_, L>,
    options: Options,
    start: &BoxOf,
) -> Result<Vec<Part>, NoMemory>
    requires set_up { IsSetUp run.now options }
    requires length { length start.now ≡ length run.now.program.now.start }
    ensures { IfOk result (λ parts. ArePartsFor options parts.items) }
{
    law_parts_to();
    if has_limit(options) {
        let parts = parts_to_depth(alloc, options.depth)?;
        return Ok(parts);
    }
    if options.workers == 1 {
        let parts = parts_to_depth(alloc, 0)?;
        return Ok(parts);
    }
    let tree = Tree {
        model: run.model,
        program: run.program,
        masks: run.masks,
        start,
        depth: DEEPEST,
    };
    let parts = parts_by_volume(alloc, &tree, options.most_parts)?;
    Ok(parts)
}
