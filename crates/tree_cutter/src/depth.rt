//! All parts to one depth.

ghost use Rattle.std.specs.Prelude.{◌≡◌, ◌≤◌, map, IfOk};
ghost use Rattle.std.specs.List.{range_with_len};
ghost use Rattle.tree_cover.specs.Covers.{part_at, parts_to};

use memory::NoMemory;
use std::alloc::{AllocError, Global};
use subproblems::count_to;
use tree_cover::Part;

/// The first `count` parts of one depth.
fn first_parts(alloc: Global, depth: u32, count: u64) -> Result<Vec<Part>, AllocError>
    ensures { IfOk result (λ parts. parts.items ≡ map (part_at depth) (range_with_len 0 count)) }
{
    let mut parts = Vec::new(alloc);
    for number in 0..count {
        parts.push(Part { depth, number })?;
    }
    Ok(parts)
}

/// All parts to one depth, in the order of the tree. Errors: memory.
pub fn parts_to_depth(alloc: Global, depth: u32) -> Result<Vec<Part>, NoMemory>
    requires { depth ≤ 16 }
    ensures { IfOk result (λ parts. parts.items ≡ parts_to depth) }
{
    let parts = first_parts(alloc, depth, count_to(depth))?;
    Ok(parts)
}
