// A process on a circle.

/// A process that stands on a circle of processes, each of which waits for the next one.
#[derive(Clone, Copy, Drop)]
pub struct OnCircle {
    /// The number of the circle, from 1.
    pub circle: u32,
    /// The place of the process.
    pub process: u32,
}
