//! The laws of entries. Each is the contract of a function that does nothing.
ghost use Rattle.std.specs.Prelude.{◌≡◌, ◌↔◌, ℕ, List};
ghost use Rattle.link_graph.specs.Kinds.{Kind, IsKind};
ghost use Rattle.link_graph.specs.Reading.{entry_kind};
ghost use Rattle.link_graph.specs.Entries.{cut, AreCutParts};
ghost use Rattle.link_graph.specs.Requests.{AreNames};

/// Each text is of exactly one kind, which `kind_of` computes.
pub fn an_entry_has_one_kind()
    ensures { (text : List ℕ) (kind : Kind) → (entry_kind text ≡ kind) ↔ IsKind text kind }
{}

/// The parts that `cut` computes are the only list that has
/// a gap between each two members and none within them.
pub fn a_list_is_cut_at_gaps()
    ensures divides { (text : List ℕ) → AreCutParts text (cut text) }
    ensures only { (text : List ℕ) (parts : List (List ℕ)) → AreCutParts text parts
        → parts ≡ cut text }
{}

/// What is cut out of the text of a monitor of a registered name, as that which is asked, is the name with its node.
pub fn a_partner_is_named()
    ensures { AreNames }
{}
