// The law of the definitions. It is the contract of a function that does nothing.
ghost use Rattle.json_report.specs.Laws.{ReadsBack};

use dump_sections::sections_tile_a_dump;

/// States a law and does no work: the compact text of the tree of an audit is read
/// back as that tree, for every dump in a file and 64-bit numbers of messages.
pub fn text_reads_back()
    ensures { ReadsBack }
{
    sections_tile_a_dump();
}
