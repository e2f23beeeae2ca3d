// The findings on message queues.
ghost use Rattle.std.specs.Prelude.{◌≡◌, ◌++◌, OnOk};
ghost use Rattle.section_rows.specs.Shown.{shown_kept};
ghost use Rattle.dump_audit.specs.Findings.{mail_of, stated_findings, queue_findings};
ghost use Rattle.dump_audit.specs.Inner.Audited.{IsHolder, held, held_offset};

use crate::audited::{Audited, Holder};
use crate::finding::Finding;
use dump_io::dec_u64;
use process_table::Kept;
use std::alloc::AllocError;

impl<'a> Audited<'a> {
    // How many messages the process at a place has, if that is known.
    fn mail(&self, p: usize) -> Option<u64>
        ensures { result ≡ mail_of self.now p }
    {
        *self.mails?.get(p)?
    }

    // Adds the findings on a stated length.
    fn add_stated(
        &self,
        holder: &Holder<'_>,
        line: &Kept<'_>,
        stated: u64,
        findings: &mut Vec<Finding>,
    ) -> Result<(), AllocError>
        requires { IsHolder self.now holder.now }
        ensures { OnOk result (findings.new.items ≡ findings.old.items
            ++ stated_findings self.now holder.now.p (shown_kept line.now)
            (held_offset self.now holder.now) (Some stated)) }
    {
        let p = holder.p as u32;
        let at = line.at;
        if stated > self.limit {
            findings.push(Finding::Mailbox {
                p,
                count: stated,
                at,
                other: self.offset(holder.p),
            })?;
        }
        match self.mail(holder.p) {
            Some(found) if found != stated => {
                findings.push(Finding::QueueCount {
                    p,
                    stated,
                    found,
                    at,
                    other: self.offset(holder.p),
                })?;
                Ok(())
            }
            _ => Ok(()),
        }
    }

    // Adds the findings on the length of a process's message queue.
    pub fn add_queue(
        &self,
        holder: &Holder<'_>,
        findings: &mut Vec<Finding>,
    ) -> Result<(), AllocError>
        requires { IsHolder self.now holder.now }
        ensures { OnOk result (findings.new.items ≡ findings.old.items
            ++ (let process = held self.now holder.now in
            queue_findings self.now holder.now.p process process.queue)) }
    {
        let Some(line) = self.procs.queue(holder.p) else {
            return Ok(());
        };
        match dec_u64(line.text) {
            Some(stated) => self.add_stated(holder, &line, stated, findings),
            None => {
                findings.push(Finding::UnreadQueue {
                    p: holder.p as u32,
                    at: line.at,
                    other: self.offset(holder.p),
                })?;
                Ok(())
            }
        }
    }
}
