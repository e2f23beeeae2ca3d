// What is the same in a redacted dump, what `peek` reports, and what is read
// back of an audit. Each law is the contract of a function that does nothing.
ghost use Rattle.dump_laws.specs.Laws.{AuditsReadBack, KeepsAddresses, KeepsFindings, KeepsHeaps, KeepsLeaves};
ghost use Rattle.dump_laws.specs.Laws.{KeepsProcesses, KeepsRoots, KeepsTrees, KeepsVerdicts};
ghost use Rattle.dump_laws.specs.Peeks.{PeeksRoots, PeeksTerms};

use dump_redact::{binaries_stay, bodies_are_redacted, sections_stay};
use json_report::text_reads_back;

/// States a law and does no work: a redacted dump has the same processes, and an audit finds the same in it.
pub fn findings_stay()
    ensures processes { KeepsProcesses }
    ensures findings { KeepsFindings }
{
    sections_stay();
    bodies_are_redacted();
}

/// States a law and does no work: the heap of a process in a redacted dump has the same
/// addresses in the same order, and its cells differ only in the characters of heap binaries.
pub fn heaps_stay()
    ensures heaps { KeepsHeaps }
    ensures addresses { KeepsAddresses }
{
    sections_stay();
    bodies_are_redacted();
    binaries_stay();
}

/// States a law and does no work: each process of a redacted dump has the same roots, and the tree of
/// each element differs only in the characters of heap binaries. So within each budget the same address
/// is the first that is bad. The text of each leaf stays the same unless it is a binary or refers to one.
pub fn trees_stay()
    ensures roots { KeepsRoots }
    ensures trees { KeepsTrees }
    ensures verdicts { KeepsVerdicts }
    ensures leaves { KeepsLeaves }
{
    sections_stay();
    bodies_are_redacted();
    heaps_stay();
}

/// States a law and does no work: where `term`, `stack`, `dict` or `mail` isn't refused, `peek` of
/// the same words isn't either and reports the same; of roots, if it shows them from the first on
/// and may show as many as there are. Behind that a truncated dump alone has lines: on what it may lack.
pub fn peek_reports_the_same()
    ensures terms { PeeksTerms }
    ensures roots { PeeksRoots }
{}

/// States a law and does no work: the text that `audit-json` writes for a
/// dump in a file, without its LF, is read back as the tree of the audit.
pub fn audits_read_back()
    ensures { AuditsReadBack }
{
    text_reads_back();
}
