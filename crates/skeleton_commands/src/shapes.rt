// `shapes`: what kinds of messages are in a process's mailbox.
ghost use Rattle.skeleton_commands.specs.Rows.{shapes_row};
ghost use Rattle.dump_questions.specs.Runs.{Runs};
ghost use Rattle.dump_questions.specs.Tasks.{question};

use crate::put_shapes;
use dump_io::{Dumps, Sink};
use dump_questions::status::DONE;
use dump_questions::{Opened, Report, Stop, Unopened, find_process, run_report};
use message_shapes::MailShapes;
use root_views::RootKind;
use term_text::put_cuts;

#[derive(Clone, Copy)]
pub(crate) struct Shapes<'a> {
    pub pid: &'a [u8],
    pub count: u32,
    pub pids: bool,
}

impl Report for Shapes<'_> {
    type Loaded = MailShapes;

    ghost means = { λ c. shapes_row c.pid.now c.count c.pids };

    ghost seen = { λ _ index shapes. record { index = index; seen = shapes } };

    fn read<D: Dumps>(&self, at: &Opened<'_>, dumps: &mut D) -> Result<MailShapes, Stop> {
        find_process(at, self.pid)?;
        let shapes = MailShapes::load(at.alloc, dumps, at.index, self.pid, self.pids)?;
        Ok(shapes)
    }

    fn put<K: Sink>(&self, at: &Opened<'_>, shapes: &MailShapes, out: &mut K) -> Result<u8, Stop> {
        put_shapes(out, shapes, u64::from(self.count))?;
        put_cuts(out, at.index, self.pid, &[RootKind::Mail])?;
        Ok(DONE)
    }
}

/// Runs `shapes`, and returns its status.
pub fn run_shapes<D: Dumps, K: Sink>(
    dump: &Unopened<'_>,
    pid: &[u8],
    count: u32,
    pids: bool,
    dumps: &mut D,
    out: &mut K,
) -> Result<u8, Stop>
    ensures { Runs (question dump.now.file.now (shapes_row pid.now count pids)) dump.now.limits.now
        (D.state dumps.old) (D.state dumps.new) (K.state out.old) (K.state out.new) result }
{
    run_report(dump, &Shapes { pid, count, pids }, dumps, out)
}
