// The first bytes of a range.
ghost use Rattle.std.specs.Prelude.{◌≡◌, ◌≤◌, length};

use arrayvec::ArrayVec;
use std::marker::Model;

/// At most 32 bytes.
#[derive(Drop)]
pub struct FewBytes {
    bytes: ArrayVec<u8, 32>,
}

impl Model for FewBytes {
    ghost use Rattle.std.specs.Prelude.{ℕ, List};

    ghost Value = { List ℕ };

    ghost view = { λ few. few.bytes.items };
}

impl FewBytes {
    /// These bytes.
    pub fn new(bytes: &[u8]) -> FewBytes
        requires { length bytes.now ≤ 32 }
        ensures { result ≡ bytes.now }
    {
        let mut kept = ArrayVec::new();
        if kept.try_extend_from_slice(bytes).is_err() {
            unreachable!();
        }
        FewBytes { bytes: kept }
    }

    /// The bytes.
    pub fn bytes(&self) -> &[u8]
        ensures value { result.now ≡ self.now }
        ensures few { length result.now ≤ 32 }
    {
        self.bytes.as_slice()
    }
}
