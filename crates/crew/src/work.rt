//! What a crew is given to run.

/// The runs of a job, one of each number below a count.
#[derive(Drop)]
pub struct Work<'a, J, F> {
    /// Says what stands of the runs.
    pub job: &'a J,
    /// Makes the run of one number.
    pub run: &'a F,
    /// The numbers to run are those below it.
    pub count: u32,
}
