// The law of made dumps.
ghost use Rattle.std.specs.Prelude.{◌≡◌, ◌+◌, ◌*◌, ◌≤◌, ℕ, List, All, length};
ghost use Rattle.dump_io.specs.Limits.{usual};
ghost use Rattle.dump_io.specs.Lines.{headers};
ghost use Rattle.dump_sections.specs.Bodies.{body_length};
ghost use Rattle.dump_sections.specs.Index.{dump_state};
ghost use Rattle.section_index.specs.Opening.{IsAccepted};
ghost use Rattle.dump_sections.specs.Sections.{sections};
ghost use Rattle.dump_sections.specs.declared.index.State.TheVariants.{Whole};
ghost use Rattle.heap_cells.specs.DumpHeaps.{heap_weight};
ghost use Rattle.dump_write.specs.Made.{made};

use term_forms::{Enc, form_is_read, number_is_read};

/// States a law and does no work: a made dump is accepted under the usual limits, it is whole, it has five
/// sections for each process and five more, and none of its bodies and none of its heaps exceeds a usual limit.
pub fn made_dump_is_accepted(seed: u64, count: u32)
    requires some { 1 ≤ count }
    requires few { count ≤ 200000 }
    ensures accepted { IsAccepted (made seed count) usual }
    ensures whole { dump_state (headers (made seed count)) ≡ Whole }
    ensures sections { length (sections (made seed count)) ≡ 5 * count + 5 }
    ensures bodies { let all = sections (made seed count) in
        All (λ section. body_length section ≤ usual.section) all }
    ensures heaps { (pid : List ℕ) → heap_weight pid (made seed count) ≤ usual.dense }
{
    number_is_read();
    form_is_read(Enc::Hex);
    form_is_read(Enc::Base64);
}
