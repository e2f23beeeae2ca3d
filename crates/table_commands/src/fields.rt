// `fields`: one field of every section with a tag.
ghost use Rattle.table_commands.specs.Rows.{fields_row};
ghost use Rattle.dump_questions.specs.Runs.{Runs};
ghost use Rattle.dump_questions.specs.Tasks.{question};

use dump_io::{Dumps, Sink};
use dump_questions::status::DONE;
use dump_questions::{Opened, Report, Stop, Unopened, or_stop, run_report};
use report_text::put_section_fields;
use table_sections::SectionFields;

#[derive(Clone, Copy)]
pub(crate) struct Fields<'a> {
    pub tag: &'a [u8],
    pub key: &'a [u8],
}

impl Report for Fields<'_> {
    type Loaded = SectionFields;

    ghost means = { λ c. fields_row c.tag.now c.key.now };

    ghost seen = { λ _ _ fields. fields };

    fn read<D: Dumps>(&self, at: &Opened<'_>, dumps: &mut D) -> Result<SectionFields, Stop> {
        or_stop(SectionFields::load(at.alloc, dumps, at.index, self.tag, self.key, at.limits))
    }

    fn put<K: Sink>(
        &self,
        _at: &Opened<'_>,
        fields: &SectionFields,
        out: &mut K,
    ) -> Result<u8, Stop> {
        put_section_fields(out, fields)?;
        Ok(DONE)
    }
}

/// Runs `fields`, and returns its status.
pub fn run_fields<D: Dumps, K: Sink>(
    dump: &Unopened<'_>,
    tag: &[u8],
    key: &[u8],
    dumps: &mut D,
    out: &mut K,
) -> Result<u8, Stop>
    ensures { Runs (question dump.now.file.now (fields_row tag.now key.now)) dump.now.limits.now
        (D.state dumps.old) (D.state dumps.new) (K.state out.old) (K.state out.new) result }
{
    run_report(dump, &Fields { tag, key }, dumps, out)
}
