// The laws of the definitions. Each is the contract of a function that does nothing.
ghost use Rattle.etf_terms.specs.Laws.{IsUnique, IsPrefixFree, JudgesAll, ReadsAll};

/// The same bytes spell at most one term.
pub fn unique_reading()
    ensures { IsUnique }
{}

/// No term's bytes are a proper prefix of another's.
pub fn no_proper_prefix()
    ensures { IsPrefixFree }
{}

/// If [`judge`](crate::judge) finds the place where bytes cease to begin an external term, the longest
/// prefix that begins one ends there, whatever follows; if it finds no such place, the bytes are one.
pub fn bad_place_is_longest()
    ensures { JudgesAll }
{}

/// The text that is computed from an external term's bytes is that of the term.
pub fn text_is_read()
    ensures { ReadsAll }
{}
