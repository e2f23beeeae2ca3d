// The versions of the dump format.
ghost use Rattle.std.specs.Prelude.{◌≡◌};
ghost use Rattle.dump_sections.specs.Versions.{version_named};

/// A version of the dump format that is read.
#[derive(Clone, Copy)]
pub enum Version {
    /// `0.3`.
    V03,
    /// `0.4`.
    V04,
    /// `0.5`.
    V05,
}

/// The version that an id names, if one is read that has this name.
pub fn version_of(id: &[u8]) -> Option<Version>
    ensures { result ≡ version_named id.now }
{
    if id == b"0.3".as_slice() {
        return Some(Version::V03);
    }
    if id == b"0.4".as_slice() {
        return Some(Version::V04);
    }
    if id == b"0.5".as_slice() {
        return Some(Version::V05);
    }
    None
}
