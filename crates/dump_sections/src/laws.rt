// The laws of sections.
ghost use Rattle.std.specs.Prelude.{◌≡◌, ℕ, List, true, length, take, nat_eq};
ghost use Rattle.std.specs.List.{starts_with};
ghost use Rattle.dump_sections.specs.Cuts.{AreCutSections};
ghost use Rattle.dump_sections.specs.Versions.{signature};
ghost use Rattle.dump_sections.specs.Sections.{sections};
ghost use Rattle.dump_sections.specs.Tiling.{Tile};

/// States a law and does no work: a dump that is cut off has those sections of the whole dump that begin
/// within what is left. All but the last are as in the whole dump, and the last begins at the same offset.
pub fn a_cut_keeps_sections()
    ensures { (bytes : List ℕ) (n : ℕ) → let front = take n bytes in
        AreCutSections (sections front) (sections bytes) (length front) }
{}

/// States a law and does no work: the sections of bytes that
/// begin as a dump tile them, from the first byte to the last.
pub fn sections_tile_a_dump()
    ensures { (bytes : List ℕ) → starts_with nat_eq bytes signature ≡ true
        → Tile 0 (length bytes) (sections bytes) }
{}
