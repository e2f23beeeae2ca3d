// Processes that wait for one another.
ghost use Rattle.std.specs.Prelude.{◌≡◌, ◌<◌, List, length};
ghost use Rattle.std.specs.Option.{option_copied};
ghost use Rattle.wait_circles.specs.Waiters.{HaveOwnPids, Waiter, process_of, target_at};

/// Processes that wait for one another, by their places from 0. No two have the same pid.
pub trait Waiting {
    /// The processes in their order.
    ghost waiters: { Self → List Waiter };

    /// How many processes there are.
    fn len(&self) -> usize
        ensures value { result ≡ length (waiters self.now) }
        ensures own { HaveOwnPids (waiters self.now) };

    /// That for which the process at a place waits, if it waits.
    fn target(&self, process: usize) -> Option<&[u8]>
        requires { process < length (waiters self.now) }
        ensures { option_copied result ≡ target_at (waiters self.now) process };

    /// The place of the process with this pid.
    fn find(&self, pid: &[u8]) -> Option<usize>
        ensures { result ≡ process_of (waiters self.now) pid.now };
}
