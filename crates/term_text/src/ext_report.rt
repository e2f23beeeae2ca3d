// The report of an external term.
ghost use Rattle.std.specs.Prelude.{◌≡◌};
ghost use Rattle.dump_io.specs.Sinks.{Puts};
ghost use Rattle.term_text.specs.Roots.{ext_report};

use dump_io::{Failed, Sink, write_all};
use etf_terms::Ext;

/// Writes the text of an external term and an LF.
pub fn put_ext<K: Sink>(sink: &mut K, ext: &mut Ext<'_>) -> Result<(), Failed>
    ensures same { ext.new ≡ ext.old }
    ensures puts { Puts (K.state sink.old) (K.state sink.new) (ext_report ext.old.bytes) result }
{
    ext.put(sink)?;
    write_all(sink, b"\n")
}
