//! The headers of a stream that comes in pieces.
//!
//! A header is a line whose text begins with `=`. A [`LineScan`] is fed the stream
//! piece by piece, cut anywhere, and a [`HeaderSink`] hears each header once its LF has
//! come. At the end `finish` lets it hear a last header whose line has no LF. By then
//! it has heard the list `headers` of the whole stream, however the stream was cut.
//!
//! ```text
//! let mut scan = LineScan::new(4_096);
//! scan.feed(b"=proc:<0.1.0>\nState: Wai", &mut receiver)?; // hears the header at 0
//! scan.feed(b"ting\n=end", &mut receiver)?;
//! scan.finish(&mut receiver)?; // hears `=end`
//! ```
//!
//! The scan ends early if a line that begins with `=` is longer than its limit, or if the
//! receiver refuses a header. It looks for `=` and tests the byte before it, so that the
//! lines between the headers cost no more than reading them. Nothing here takes memory.
#![tactic(auto)]

mod header_sink;
mod laws;
mod line_scan;
mod scan_fault;
mod starts;

pub use header_sink::{HeaderSink, HeaderStop, RefusedHeader};
pub use laws::streams_grow;
pub use line_scan::LineScan;
pub use scan_fault::ScanFault;
