// Why a scan ended before the stream did.
ghost use Rattle.std.specs.Prelude.{◌≡◌};
ghost use Rattle.line_source.specs.declared.scan_fault.ScanFault.TheVariants.{Stop};

use crate::header_sink::HeaderStop;

/// Why a scan ended before the stream did.
#[derive(Clone, Copy, Debug, PartialEq, Eq)]
pub enum ScanFault {
    /// The line at this offset begins with `=` and has more bytes before its LF than are allowed.
    HeaderTooLong { at: u64 },
    /// The receiver refused a header.
    Stop(HeaderStop),
}

impl From<HeaderStop> for ScanFault {
    ghost from_gives = { λ stop fault. fault ≡ Stop stop };

    fn from(stop: HeaderStop) -> ScanFault {
        ScanFault::Stop(stop)
    }
}
