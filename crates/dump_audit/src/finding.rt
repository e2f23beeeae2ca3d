// What an audit finds.

/// A finding of an audit. Processes are identified by their places in the process table, and entries
/// by their numbers in the link list of `p`, both from 0. `at` and `other` are offsets in the file.
#[derive(Clone, Copy)]
pub enum Finding {
    /// `p` has a link to `q`, and `q` has none to `p`. `at` is the
    /// offset of the entry, and `other` that of the section of `q`.
    LinkOneSided {
        p: u32,
        q: u32,
        entry: u32,
        at: u64,
        other: u64,
    },
    /// `p` monitors `q`, and `q` isn't monitored by `p` under the same reference.
    /// `at` is the offset of the entry, and `other` that of the section of `q`.
    MonitorTo {
        p: u32,
        q: u32,
        entry: u32,
        at: u64,
        other: u64,
    },
    /// `p` is monitored by `q`, and `q` monitors neither `p` nor a name under the same
    /// reference. `at` is the offset of the entry, and `other` that of the section of `q`.
    MonitorFrom {
        p: u32,
        q: u32,
        entry: u32,
        at: u64,
        other: u64,
    },
    /// The stated length of the message queue of `p` is above the limit. `at` is
    /// the offset of the field's line, and `other` that of the section of `p`.
    Mailbox {
        p: u32,
        count: u64,
        at: u64,
        other: u64,
    },
    /// The link list of `p` isn't a list. `at` is the offset of the field's line, and `other` that of the section of `p`.
    UnreadLinks {
        p: u32,
        at: u64,
        other: u64,
    },
    /// The stated length of the message queue of `p` isn't a number. `at` is
    /// the offset of the field's line, and `other` that of the section of `p`.
    UnreadQueue {
        p: u32,
        at: u64,
        other: u64,
    },
    /// `p` has a link to a process of the dumped node that isn't in the dump.
    /// `at` is the offset of the entry, and `other` that of the section of `p`.
    LinkGone {
        p: u32,
        entry: u32,
        at: u64,
        other: u64,
    },
    /// `p` monitors a process of the dumped node that isn't in the dump. `at`
    /// is the offset of the entry, and `other` that of the section of `p`.
    ToGone {
        p: u32,
        entry: u32,
        at: u64,
        other: u64,
    },
    /// `p` is monitored by a process of the dumped node that isn't in the dump.
    /// `at` is the offset of the entry, and `other` that of the section of `p`.
    FromGone {
        p: u32,
        entry: u32,
        at: u64,
        other: u64,
    },
    /// The stated length of the message queue of `p` isn't the number of its messages.
    /// `at` is the offset of the field's line, and `other` that of the section of `p`.
    QueueCount {
        p: u32,
        stated: u64,
        found: u64,
        at: u64,
        other: u64,
    },
}
