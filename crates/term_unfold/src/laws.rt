// The laws of the definitions. Each is the contract of a function that does nothing.
ghost use Rattle.std.specs.Prelude.{◌≡◌, ℕ, ◌+◌, List};
ghost use Rattle.heap_cells.specs.Cells.{Cell};
ghost use Rattle.term_unfold.specs.Laws.{FollowsRules, IsEnough, Suits, joined, LookAlike, hash_map, behind_inner};
ghost use Rattle.term_unfold.specs.Parts.{IsPartOfHeap, IsEnoughOf};
ghost use Rattle.term_unfold.specs.Rules.{Child};
ghost use Rattle.term_unfold.specs.Terms.{IsTerm};
ghost use Rattle.term_unfold.specs.Text.{show};
ghost use Rattle.term_unfold.specs.Trees.{Value, Tree, Trees};
ghost use Rattle.term_unfold.specs.Unfolding.{unfolded};

/// The unfolding follows the rules without a bound on levels; more levels than there are
/// cells change nothing; a term unfolds to a term, and a child of a hash map to an item.
pub fn unfolding_is_finite()
    ensures rules { FollowsRules unfolded }
    ensures enough { IsEnough }
    ensures suits { (heap : List Cell) (path : List ℕ) (child : Child)
        → Suits child (unfolded heap path child) }
{}

/// The text over n nodes depends on the first n nodes alone: two terms whose first n nodes look
/// alike and stand at the same places have the same text. What a leaf looks like is its text,
/// which may come from another function for each of the two.
pub fn text_is_of_first_nodes()
    ensures { (leaf leaf' : Value → List ℕ) (t u : Tree) (n : ℕ)
        → IsTerm t → IsTerm u → LookAlike leaf leaf' n t u → show leaf t n ≡ show leaf' u n }
{}

/// A part of a heap, of which each cell is one of the heap's, gives the heap's answer to each
/// root, unless one of the nodes within the budget asks for a cell that only the heap has.
pub fn part_is_enough()
    ensures { (part whole : List Cell) → IsPartOfHeap part whole → IsEnoughOf part whole }
{}

/// A hash map that begins with an inner node has the text of the map that begins with
/// that node's children instead, when one more node is visited: the inner node itself.
pub fn inner_node_is_its_children()
    ensures { (leaf : Value → List ℕ) (children rest : Trees) (n : ℕ)
        → show leaf (hash_map (behind_inner children rest)) (n + 2)
        ≡ show leaf (hash_map (joined children rest)) (n + 1) }
{}
