//! For each variable the kernels that name it: a row of those of which it is an own variable, and a row of the lists that
//! have it, each of which has a row of its kernels. A list's variables are kept once, however many kernels have it.

ghost use Rattle.std.specs.Prelude.{◌≡◌, ◌<◌, ◌*◌, ◌^◌, [], ◌∷◌, ℕ, List, length, All, IfOk, OnOk};
ghost use Rattle.guarded_tell.specs.Kernels.{IsKernel};
ghost use Rattle.moved_set.specs.Parts.{AreLists, AreParts, list_at, part_at, own_keys_at};
ghost use Rattle.moved_set.specs.Rows.{AreRowsTo, PutsAll, PutsOnce, row_at};

use crate::parts::{Part, Parts};
use guarded_tell::Kernel;
use shared_list::SharedList;
use std::alloc::{AllocError, Global};

/// For each variable the kernels that name it.
#[derive(Drop)]
pub(crate) struct Rows {
    /// For each variable three rows of the kernels that have it among their own: those that are asked by its lower bound alone,
    /// by both, and by the upper one.
    pub(crate) own: Vec<Vec<u32>>,
    /// For each variable the lists that have it.
    pub(crate) lists_of: Vec<Vec<u32>>,
    /// For each list the kernels that have it.
    pub(crate) users: Vec<Vec<u32>>,
}

impl Rows {
    /// The rows of these kernels, which name some of the first `count` variables.
    pub(crate) fn of(
        alloc: Global,
        kernels: &[Kernel],
        parts: &Parts,
        count: u32,
    ) -> Result<Rows, AllocError>
        requires few_kernels { length kernels.now < 2 ^ 32 }
        requires few_lists { length parts.now.lists.items < 2 ^ 32 }
        requires few_variables { count < 1073741824 }
        requires kernels { All (IsKernel count) kernels.now }
        requires lists { AreLists count parts.now.lists.items }
        requires parts { AreParts kernels.now (length kernels.now) parts.now.lists.items parts.now.of_kernels.items }
        ensures own { IfOk result (λ rows. AreRowsTo (own_keys_at kernels.now parts.now.lists.items parts.now.of_kernels.items) (length kernels.now) (3 * count) rows.own.items) }
        ensures lists { IfOk result (λ rows. AreRowsTo (list_at parts.now.lists.items) (length parts.now.lists.items) count rows.lists_of.items) }
        ensures users { IfOk result (λ rows. AreRowsTo (λ j. (part_at parts.now.of_kernels.items j).list ∷ []) (length kernels.now) (length parts.now.lists.items) rows.users.items) }
    {
        let of_kernels = parts.of_kernels.as_slice();
        let lists = parts.lists.as_slice();
        let own = own_rows(alloc, kernels, parts, count)?;
        let lists_of = list_rows(alloc, lists, count)?;
        let users = user_rows(alloc, of_kernels, lists.len())?;
        Ok(Rows {
            own,
            lists_of,
            users,
        })
    }
}

/// The row at a place.
pub(crate) fn row(rows: &[Vec<u32>], place: usize) -> &[u32]
    requires { place < length rows.now }
    ensures { result.now ≡ row_at rows.now place }
{
    rows[place].as_slice()
}

/// So many empty rows.
fn empty_rows(alloc: Global, count: usize) -> Result<Vec<Vec<u32>>, AllocError>
    ensures { IfOk result (λ rows. (keys : ℕ → List ℕ) → AreRowsTo keys 0 count rows.items) }
{
    let mut rows = Vec::with_capacity(alloc, count)?;
    for made in 0..count {
        rows.push(Vec::new(alloc))?;
    }
    Ok(rows)
}

/// Appends `j` to a row, unless it is the last there: so a list that has a variable many times is once in its row.
fn put_once(row: &mut Vec<u32>, j: u32) -> Result<(), AllocError>
    ensures { OnOk result (PutsOnce j row.old.items row.new.items) }
{
    let count = row.len();
    if count > 0 && row[count - 1] == j {
        return Ok(());
    }
    row.push(j)?;
    Ok(())
}

/// Puts `j` into the row of each of these keys.
fn put(rows: &mut Vec<Vec<u32>>, keys: &[u32], j: u32) -> Result<(), AllocError>
    requires { All (λ key. key < length rows.old.items) keys.now }
    ensures { OnOk result (PutsAll keys.now j rows.old.items rows.new.items) }
{
    for key in keys {
        put_once(&mut rows[*key as usize], j)?;
    }
    Ok(())
}

/// For each key of own variables the row of the kernels that have it.
fn own_rows(
    alloc: Global,
    kernels: &[Kernel],
    parts: &Parts,
    count: u32,
) -> Result<Vec<Vec<u32>>, AllocError>
    requires few { length kernels.now < 2 ^ 32 }
    requires few_variables { count < 1073741824 }
    requires kernels { All (IsKernel count) kernels.now }
    requires parts { AreParts kernels.now (length kernels.now) parts.now.lists.items parts.now.of_kernels.items }
    ensures { IfOk result (λ rows. AreRowsTo (own_keys_at kernels.now parts.now.lists.items parts.now.of_kernels.items) (length kernels.now) (3 * count) rows.items) }
{
    let mut rows = empty_rows(alloc, 3 * count as usize)?;
    let mut keys = Vec::new(alloc);
    for j in 0..kernels.len() {
        parts.own_keys(&mut keys, kernels, j)?;
        put(&mut rows, keys.as_slice(), j as u32)?;
    }
    Ok(rows)
}

/// For each variable the row of the lists that have it.
fn list_rows(
    alloc: Global,
    lists: &[SharedList<u32>],
    count: u32,
) -> Result<Vec<Vec<u32>>, AllocError>
    requires few { length lists.now < 2 ^ 32 }
    requires lists { AreLists count lists.now }
    ensures { IfOk result (λ rows. AreRowsTo (list_at lists.now) (length lists.now) count rows.items) }
{
    let mut rows = empty_rows(alloc, count as usize)?;
    for l in 0..lists.len() {
        put(&mut rows, lists[l].as_slice(), l as u32)?;
    }
    Ok(rows)
}

/// For each of so many lists the row of the kernels that have it.
fn user_rows(alloc: Global, parts: &[Part], count: usize) -> Result<Vec<Vec<u32>>, AllocError>
    requires few { length parts.now < 2 ^ 32 }
    requires lists { (j : ℕ) → j < length parts.now → (part_at parts.now j).list < count }
    ensures { IfOk result (λ rows. AreRowsTo (λ j. (part_at parts.now j).list ∷ []) (length parts.now) count rows.items) }
{
    let mut rows = empty_rows(alloc, count)?;
    for j in 0..parts.len() {
        rows[parts[j].list].push(j as u32)?;
    }
    Ok(rows)
}
