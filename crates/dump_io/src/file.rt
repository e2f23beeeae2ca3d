// A named file in memory.
ghost use Rattle.std.specs.Prelude.{◌≡◌, ◌^◌, ◌<◌, length};

/// A name and the bytes of the file with that name, for a device in memory.
#[derive(Drop)]
pub struct DumpFile {
    pub(crate) name: String,
    pub(crate) bytes: Vec<u8>,
    ghost fits: { length bytes.items < 2 ^ 64 },
}

impl DumpFile {
    ghost use Rattle.std.specs.String.{string_bytes};
    ghost use Rattle.dump_io.specs.File.{name_of, bytes_of};

    /// Joins a name and the bytes of its file.
    pub fn new(name: String, bytes: Vec<u8>) -> DumpFile
        ensures name { name_of result ≡ string_bytes name }
        ensures bytes { bytes_of result ≡ bytes.items }
    {
        DumpFile { name, bytes }
    }
}
