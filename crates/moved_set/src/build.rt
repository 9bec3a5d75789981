//! Building of groups: each word has at most one mask in a group.

ghost use Rattle.std.specs.Prelude.{◌≡◌, ◌<◌, ◌*◌, ◌==◌, ◌↔◌, ℕ, length, All, IsTrue, IfOk, OnOk};
ghost use Rattle.std.specs.List.{list_any};
ghost use Rattle.moved_set.specs.Words.{names};
ghost use Rattle.moved_set.specs.Building.{place_at, Adds, AreGroupsOf, AreWithin};
ghost use Rattle.moved_set.specs.Rows.{row_at};

use crate::groups::Groups;
use crate::mask::{Mask, mask_of};
use crate::rows::row;
use memory::NoMemory;
use std::alloc::Global;

/// Adds a mask to a group. `last` has for each word the place of its mask, if it has one there.
fn add(group: &mut Vec<Mask>, last: &mut [usize], mask: Mask) -> Result<(), NoMemory>
    requires place { mask.place < length last.old }
    requires within { AreWithin (length last.old) group.old.items }
    ensures adds { OnOk result (Adds mask group.old.items group.new.items) }
    ensures within { OnOk result (AreWithin (length last.old) group.new.items) }
{
    let word = mask.place as usize;
    let at = last[word];
    if is_there(group.as_slice(), at, mask.place) {
        group[at].bits |= mask.bits;
        return Ok(());
    }
    last[word] = group.as_slice().len();
    if group.push(mask).is_err() {
        return Err(NoMemory);
    }
    Ok(())
}

/// Whether the mask of this word is at this place.
fn is_there(group: &[Mask], at: usize, word: u32) -> bool
    ensures { IsTrue result ↔ ((at < length group.now) × (place_at group.now at ≡ word)) }
{
    at < group.len() && group[at].place == word
}

/// Makes the group of these numbers.
fn add_all(group: &mut Vec<Mask>, last: &mut [usize], numbers: &[u32]) -> Result<(), NoMemory>
    requires { All (λ j. j < 32 * length last.old) numbers.now }
    ensures named { OnOk result ((j : ℕ) → names group.new.items j ≡ list_any (λ i. j == i) numbers.now) }
    ensures within { OnOk result (AreWithin (length last.old) group.new.items) }
{
    group.clear();
    for j in numbers {
        add(group, last, mask_of(*j))?;
    }
    Ok(())
}

/// The masks of the numbers of each row, in so many words.
pub(crate) fn masks_of(alloc: Global, rows: &[Vec<u32>], words: usize) -> Result<Groups, NoMemory>
    requires { (i : ℕ) → i < length rows.now → All (λ j. j < 32 * words) (row_at rows.now i) }
    ensures masks { IfOk result (AreGroupsOf (row_at rows.now) (length rows.now)) }
    ensures within { IfOk result (λ groups. All (AreWithin words) groups) }
{
    let mut groups = Groups::new(alloc)?;
    let mut group = Vec::new(alloc);
    let mut places = vec![in alloc; 0; words]?;
    let last = places.as_mut_slice();
    for i in 0..rows.len() {
        add_all(&mut group, last, row(rows, i))?;
        let made = group.as_slice();
        groups.push(made)?;
    }
    Ok(groups)
}
