//! The tasks of a cumulative resource.

ghost use Rattle.std.specs.Prelude.{◌≡◌, ◌<◌, length, slice_index};
ghost use Rattle.global_tells.specs.Cumulative.{AreTasks, IsTask, task_in};

/// A task.
#[derive(Clone, Copy)]
pub struct Task {
    /// The variable of its start.
    pub start: u32,
    /// How long it takes.
    pub duration: i64,
    /// How much it uses of the resource.
    pub usage: i64,
}

/// The tasks of a resource, and how much of it there is.
#[derive(Clone, Copy)]
pub struct Tasks<'a> {
    /// The variables of the starts.
    pub starts: &'a [u32],
    /// The duration of each.
    pub durations: &'a [i64],
    /// The usage of each.
    pub usages: &'a [i64],
    /// The limit of what is used at a time.
    pub limit: i64,
}

impl Tasks<'_> {
    /// The task at this place.
    pub fn at(&self, place: usize) -> Task
        requires tasks { AreTasks self.now.starts.now self.now.durations.now self.now.usages.now self.now.limit }
        requires place { place < length self.now.starts.now }
        ensures value { result ≡ task_in self.now place }
        ensures start { result.start ≡ slice_index self.now.starts.now place }
        ensures amounts { IsTask result }
    {
        Task {
            start: self.starts[place],
            duration: self.durations[place],
            usage: self.usages[place],
        }
    }
}
