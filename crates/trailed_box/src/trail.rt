//! The trail: the changes of a box, and the marks in it.

ghost use Rattle.std.specs.Prelude.{◌≡◌, ◌++◌, ◌∷◌, [], ◌<◌, ◌≤◌, ◌↔◌, length, drop, take, All, IsTrue, OnOk, OnErr};
ghost use Rattle.interval.specs.Boxes.{low_of, high_of};
ghost use Rattle.trailed_box.specs.Trailed.{IsPart};
ghost use Rattle.trailed_box.specs.Trail.{undone, var_at, AreOn, Spares, Appends};

use interval::BoxOf;
use memory::NoMemory;

/// The bounds of one variable.
#[derive(Clone, Copy, PartialEq, Eq, Debug)]
pub struct Part {
    /// The variable.
    pub var: u32,
    /// Its lower bound.
    pub low: i64,
    /// Its upper bound.
    pub high: i64,
}

/// A change of a variable.
#[derive(Clone, Copy)]
pub(crate) struct Change {
    /// The variable.
    pub(crate) var: u32,
    /// The place on the trail of the variable's last change before this one.
    pub(crate) earlier: u32,
    /// The lower bound before the change.
    pub(crate) low: i64,
    /// The upper bound before the change.
    pub(crate) high: i64,
}

/// A place on the trail, and the bounds that a variable has in the box that was left for later there.
#[derive(Clone, Copy)]
pub(crate) struct Mark {
    pub(crate) from: usize,
    // the length of the log there, a hint
    pub(crate) logged: usize,
    pub(crate) part: Part,
}

/// Puts the bounds of `v` on the trail, unless there is no mark or they are on it since the last one: only the first
/// change since a mark matters.
pub(crate) fn note(
    current: &BoxOf,
    marks: &[Mark],
    trail: &mut Vec<Change>,
    last: &mut [u32],
    v: u32,
) -> Result<(), NoMemory>
    requires variable { v < length current.now }
    requires places { length last.old ≡ length current.now }
    requires marks { AreOn trail.old.items marks.now }
    requires changes { All (λ c. IsPart (length current.now) c.var c.low c.high) trail.old.items }
    ensures spared { OnOk result (Spares marks.now trail.old.items trail.new.items current.now v) }
    ensures marks { OnOk result (AreOn trail.new.items marks.now) }
    ensures changes { OnOk result (All (λ c. IsPart (length current.now) c.var c.low c.high) trail.new.items) }
    ensures err { OnErr result (trail.new.items ≡ trail.old.items) }
{
    let Some(mark) = marks.last() else {
        return Ok(());
    };
    if is_noted(trail.as_slice(), mark.from, last[v as usize], v) {
        return Ok(());
    }
    append(current, trail, last, v)
}

/// Whether the change at this place was made since a mark, and is one of `v`.
fn is_noted(trail: &[Change], from: usize, place: u32, v: u32) -> bool
    ensures { IsTrue result ↔ ((from ≤ place) × (place < length trail.now) × (var_at trail.now place ≡ v)) }
{
    let place = place as usize;
    from <= place && place < trail.len() && trail[place].var == v
}

/// Puts the bounds of `v` on the trail. A trail of more than 2^32 changes counts as want of memory.
fn append(
    current: &BoxOf,
    trail: &mut Vec<Change>,
    last: &mut [u32],
    v: u32,
) -> Result<(), NoMemory>
    requires variable { v < length current.now }
    requires places { length last.old ≡ length current.now }
    ensures ok { OnOk result (Appends current.now v trail.old.items trail.new.items) }
    ensures part { OnOk result (IsPart (length current.now) v (low_of current.now v) (high_of current.now v)) }
    ensures err { OnErr result (trail.new.items ≡ trail.old.items) }
{
    let Ok(place) = u32::try_from(trail.as_slice().len()) else {
        return Err(NoMemory);
    };
    let var = v as usize;
    let change = Change {
        var: v,
        earlier: last[var],
        low: current.low(v),
        high: current.high(v),
    };
    put_behind(trail, change)?;
    last[var] = place;
    Ok(())
}

/// Puts a change behind the trail.
#[inline(always)]
fn put_behind(trail: &mut Vec<Change>, change: Change) -> Result<(), NoMemory>
    ensures items { OnOk result (trail.new.items ≡ trail.old.items ++ change ∷ []) }
    ensures err { OnErr result (trail.new.items ≡ trail.old.items) }
{
    if trail.as_slice().len() < trail.capacity() {
        trail.push_reserved(change);
        return Ok(());
    }
    put_growing(trail, change)
}

/// The same where the trail has to grow. It stands apart, so that nothing is kept for it where the trail hasn't to.
#[inline(never)]
fn put_growing(trail: &mut Vec<Change>, change: Change) -> Result<(), NoMemory>
    ensures items { OnOk result (trail.new.items ≡ trail.old.items ++ change ∷ []) }
    ensures err { OnErr result (trail.new.items ≡ trail.old.items) }
{
    if trail.push(change).is_err() {
        return Err(NoMemory);
    }
    Ok(())
}

/// Undoes the changes from a place on, the last first.
pub(crate) fn undo(current: &mut BoxOf, trail: &mut Vec<Change>, last: &mut [u32], from: usize)
    requires place { from ≤ length trail.old.items }
    requires places { length last.old ≡ length current.old }
    requires changes { All (λ c. IsPart (length current.old) c.var c.low c.high) trail.old.items }
    ensures current { current.new ≡ undone (drop from trail.old.items) current.old }
    ensures same_length { length current.new ≡ length current.old }
    ensures trail { trail.new.items ≡ take from trail.old.items }
{
    let mut place = trail.as_slice().len();
    while place > from {
        place -= 1;
        let change = trail[place];
        current.put(change.var, change.low, change.high);
        last[change.var as usize] = change.earlier;
    }
    trail.truncate(from);
}
