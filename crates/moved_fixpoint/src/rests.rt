//! The kernels that rest.

ghost use Rattle.std.specs.Prelude.{◌≡◌, ◌<◌, IfOk, OnOk, OnErr};
ghost use Rattle.moved_fixpoint.specs.Moved.{count_of};
ghost use Rattle.moved_fixpoint.specs.Resting.{AreAwake, AreFresh, AreLeft, FitRests, IsBack, KeepCounts, KeepStacks};
ghost use Rattle.moved_fixpoint.specs.Rested.{IsNoted};

use kernel_visits::Rest;
use memory::NoMemory;
use moved_set::TrailedSet;
use std::alloc::Global;

/// Which kernels rest, as sets that go back with the box.
#[derive(Drop)]
pub struct Rests {
    /// Those that may narrow a box inside the current one. The others rest for good.
    pub open: TrailedSet,
    /// Those that are visited once a variable of theirs moves. The others rest until one of their variables is fixed.
    pub alert: TrailedSet,
}

impl Rests {
    /// All kernels of so many are open, and none is alert.
    pub(crate) fn new(alloc: Global, kernels: usize) -> Result<Rests, NoMemory>
        ensures fit { IfOk result (FitRests kernels) }
        ensures fresh { IfOk result AreFresh }
    {
        let mut open = TrailedSet::new(alloc, kernels)?;
        open.fill();
        let alert = TrailedSet::new(alloc, kernels)?;
        Ok(Rests { open, alert })
    }

    /// Keeps how long the kernel at a place rests.
    #[inline(always)]
    pub(crate) fn note(&mut self, place: usize, rest: Rest) -> Result<(), NoMemory>
        requires open { place < count_of self.old.open.current }
        requires alert { place < count_of self.old.alert.current }
        ensures counts { KeepCounts self.old self.new }
        ensures stacks { KeepStacks self.old self.new }
        ensures noted { OnOk result (IsNoted place rest self.old self.new) }
    {
        match rest {
            Rest::Awake => self.alert.put(place),
            Rest::UntilFixed => Ok(()),
            Rest::ForGood => self.open.remove(place),
        }
    }

    /// Leaves both sets as they are, to go back to them.
    pub(crate) fn leave(&mut self) -> Result<(), NoMemory>
        ensures left { OnOk result (AreLeft self.old self.new) }
        ensures err { OnErr result (self.new ≡ self.old) }
    {
        self.open.push()?;
        if self.alert.push().is_err() {
            self.open.pop();
            return Err(NoMemory);
        }
        Ok(())
    }

    /// Goes back to the sets that were left last.
    pub(crate) fn back(&mut self)
        ensures open { IsBack self.old.open self.new.open }
        ensures alert { IsBack self.old.alert self.new.alert }
    {
        self.open.pop();
        self.alert.pop();
    }

    /// All kernels are open, and none is alert.
    pub(crate) fn renew(&mut self)
        ensures counts { KeepCounts self.old self.new }
        ensures fresh { AreFresh self.new }
    {
        self.open.fill();
        self.alert.clear();
    }

    /// All kernels are open and alert.
    pub(crate) fn wake(&mut self)
        ensures counts { KeepCounts self.old self.new }
        ensures awake { AreAwake self.new }
    {
        self.open.fill();
        self.alert.fill();
    }
}
