//! Which kernels are asked for by a variable: 70 kernels of two variables each, and kernels that share long lists.

ghost use Rattle.std.specs.Prelude.{◌≡◌, ◌<◌, ◌≤◌, ◌+◌, length, All, IfOk};
ghost use Rattle.guarded_tell.specs.Kernels.{IsKernel};

use guarded_tell::Kernel;
use memory::NoMemory;
use moved_set::{AskedSet, Masks, MovedSet};
use shared_list::SharedList;
use std::alloc::{AllocError, Global};
use std::test::Fail;

/// The kernel of two variables.
fn absolute(x: u32, y: u32) -> Kernel
    requires x { x < 130 }
    requires y { y < 130 }
    ensures { IsKernel 130 result }
{
    Kernel::Abs { x, y }
}

/// Kernel i names the variables i and i + 60.
fn seventy_kernels(alloc: Global) -> Result<Vec<Kernel>, AllocError>
    ensures kernels { IfOk result (λ kernels. All (IsKernel 130) kernels.items) }
    ensures count { IfOk result (λ kernels. length kernels.items ≡ 70) }
{
    let mut kernels = Vec::new(alloc);
    for x in 0..70 {
        kernels.push(absolute(x, x + 60))?;
    }
    Ok(kernels)
}

/// The next kernel from a place on and the place behind the last one before a place, where variable 65 moved or all did.
fn found(
    alloc: Global,
    masks: &Masks,
    kernels: usize,
    all: bool,
    from: usize,
    to: usize,
) -> Result<(usize, usize), NoMemory>
    requires count { masks.now.count ≡ 130 }
    requires kernels { kernels ≡ length masks.now.sets }
    requires from { from ≤ kernels }
    requires to { to ≤ kernels }
{
    let mut asked = AskedSet::new(alloc, kernels)?;
    masks.ask(65, &mut asked);
    if all {
        asked.ask_all();
    }
    Ok((asked.next(from), asked.next_back(to)))
}

#[test]
fn kernels_are_found_one_after_the_other(rt: HostRuntime) -> Result<(), Fail> {
    let kernels = seventy_kernels(rt.alloc())?;
    let masks = Masks::new(rt.alloc(), kernels.as_slice(), 130)?;
    for (all, from, next, to, last) in [(false, 6, 65, 65, 6), (true, 9, 9, 9, 9)] {
        let places = found(rt.alloc(), &masks, kernels.len(), all, from, to)?;
        assert_eq!(rt; places, (next, last));
    }
    Ok(())
}

/// So many variables from one on.
fn variables(alloc: Global, first: u32, count: u32) -> Result<Vec<u32>, AllocError>
    requires { first + count ≤ 200 }
    ensures variables { IfOk result (λ list. All (λ v. v < 200) list.items) }
    ensures count { IfOk result (λ list. length list.items ≡ count) }
{
    let mut list = Vec::new(alloc);
    for k in 0..count {
        list.push(first + k)?;
    }
    Ok(list)
}

/// So many variables from one on, and the first one again.
fn variables_and_first(alloc: Global, first: u32, count: u32) -> Result<Vec<u32>, AllocError>
    requires some { 0 < count }
    requires below { first + count ≤ 200 }
    ensures variables { IfOk result (λ list. All (λ v. v < 200) list.items) }
    ensures count { IfOk result (λ list. length list.items ≡ count + 1) }
{
    let mut list = variables(alloc, first, count)?;
    list.push(first)?;
    Ok(list)
}

/// The kernel of the greatest of a list.
fn greatest(m: u32, xs: SharedList<u32>) -> Kernel
    requires m { m < 200 }
    requires variables { All (λ v. v < 200) xs }
    requires length { length xs ≤ 100 }
    ensures { IsKernel 200 result }
{
    Kernel::Max { m, xs }
}

/// The kernel of an element of a list.
fn element(x: u32, entries: SharedList<u32>, c: u32) -> Kernel
    requires x { x < 200 }
    requires c { c < 200 }
    requires variables { All (λ v. v < 200) entries }
    requires length { length entries ≤ 100 }
    ensures { IsKernel 200 result }
{
    Kernel::Element { x, entries, c }
}

/// A kernel of one of these lists, or of a short one of its own.
fn sharing_kernel(
    alloc: Global,
    k: u32,
    one: &SharedList<u32>,
    other: &SharedList<u32>,
) -> Result<Kernel, AllocError>
    requires k { k < 24 }
    requires one { All (λ v. v < 200) one.now }
    requires one_length { length one.now ≤ 100 }
    requires other { All (λ v. v < 200) other.now }
    requires other_length { length other.now ≤ 100 }
    ensures { IfOk result (IsKernel 200) }
{
    match k % 4 {
        0 => Ok(greatest(k, one.share(alloc)?)),
        1 => Ok(greatest(170 + k, SharedList::from_vec(variables(alloc, k, 3)?)?)),
        2 => Ok(element(150 + k, one.share(alloc)?, k)),
        _ => Ok(element(15, other.share(alloc)?, 199 - k)),
    }
}

/// Kernels of which several have one long list, some have another one with the same mark, and some have a short one.
fn sharing_kernels(alloc: Global) -> Result<Vec<Kernel>, AllocError>
    ensures { IfOk result (λ kernels. All (IsKernel 200) kernels.items) }
{
    let one = SharedList::with_mark(variables(alloc, 10, 70)?, 1)?;
    let other = SharedList::with_mark(variables_and_first(alloc, 60, 80)?, 1)?;
    let mut kernels = Vec::new(alloc);
    for k in 0..24 {
        kernels.push(sharing_kernel(alloc, k, &one, &other)?)?;
    }
    Ok(kernels)
}

/// Notes a variable, and asks the kernels that name it.
fn note(masks: &Masks, moved: &mut MovedSet, asked: &mut AskedSet, v: u32)
    requires variable { v < 200 }
    requires count { masks.now.count ≡ 200 }
    requires moved { length moved.old ≡ 200 }
    requires asked { length asked.old ≡ length masks.now.sets }
    ensures moved { length moved.new ≡ length moved.old }
    ensures asked { length asked.new ≡ length asked.old }
{
    moved.mark(v);
    masks.ask(v, asked);
}

/// Whether a kernel names a variable of the set.
fn names_one(kernel: &Kernel, set: &MovedSet) -> bool
    requires kernel { IsKernel 200 kernel.now }
    requires set { length set.now ≡ 200 }
{
    (0..kernel.var_count()).any(|place| set.contains(kernel.var_at(place)))
}

/// Whether from each place on the next kernel is the one that is found by looking at each, upwards and downwards.
fn are_found(kernels: &[Kernel], asked: &AskedSet, set: &MovedSet) -> bool
    requires kernels { All (IsKernel 200) kernels.now }
    requires asked { length asked.now ≡ length kernels.now }
    requires set { length set.now ≡ 200 }
{
    let mut first = kernels.len();
    let mut last = 0;
    let mut agrees = true;
    for below in 0..kernels.len() {
        let from = kernels.len() - 1 - below;
        if names_one(&kernels[from], set) {
            first = from;
        }
        if names_one(&kernels[below], set) {
            last = below + 1;
        }
        agrees = agrees && asked.next(from) == first && asked.next_back(below + 1) == last;
    }
    agrees
}

/// The first case in which the kernels that are asked aren't those that name a noted variable: each variable alone, and each
/// with another one.
fn first_missed(
    kernels: &[Kernel],
    masks: &Masks,
    moved: &mut MovedSet,
    asked: &mut AskedSet,
) -> Option<u32>
    requires kernels { All (IsKernel 200) kernels.now }
    requires count { masks.now.count ≡ 200 }
    requires sets { length masks.now.sets ≡ length kernels.now }
    requires moved { length moved.old ≡ 200 }
    requires asked { length asked.old ≡ length kernels.now }
{
    for k in 0..400 {
        moved.clear();
        asked.clear();
        let v = (k / 2) % 200;
        note(masks, moved, asked, v);
        if k % 2 == 1 {
            note(masks, moved, asked, (v * 7 + 3) % 200);
        }
        if !are_found(kernels, asked, moved) {
            return Some(k);
        }
    }
    None
}

#[test]
fn kernels_of_shared_lists_are_found(rt: HostRuntime) -> Result<(), Fail> {
    let kernels = sharing_kernels(rt.alloc())?;
    let masks = Masks::new(rt.alloc(), kernels.as_slice(), 200)?;
    let mut moved = MovedSet::new(rt.alloc(), 200)?;
    let mut asked = AskedSet::new(rt.alloc(), kernels.len())?;
    let missed = first_missed(kernels.as_slice(), &masks, &mut moved, &mut asked);
    assert_eq!(rt; missed, None);
    Ok(())
}
