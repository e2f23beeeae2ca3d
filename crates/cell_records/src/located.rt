// What has an address.
ghost use Rattle.std.specs.Prelude.{◌≡◌, ℕ};

/// What has an address, by which it is looked up.
pub trait Located {
    /// The address.
    ghost address: { Self → ℕ };

    /// The address.
    fn address(&self) -> u64
        ensures { result ≡ address self.now };
}
