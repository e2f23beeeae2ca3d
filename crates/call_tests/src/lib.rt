//! Tests of calls: numbers, atoms and limits, devices and sinks in memory, files and streams of the machine, external terms
//! that are nested deeply, and the tree of an audit.
//!
//! Most are calls of which no whole run tells; what one tells is mostly a case of case_runner. They are separate from what
//! they test, which would otherwise be proved once more together with them.
#![tactic(auto)]

#[cfg(test)]
mod dump_io_calls;
#[cfg(test)]
mod etf_terms_calls;
#[cfg(test)]
mod host_devices_calls;
#[cfg(test)]
mod json_report_calls;
