// How much of a term is shown, from the last words of a command.
ghost use Rattle.std.specs.Prelude.{◌≡◌, [], ◌∷◌, map};
ghost use Rattle.std.specs.String.{string_bytes};
ghost use Rattle.command_words.specs.Budgets.{budget, budget_of, counted, is_mark};

use crate::numbers::number_upto;

// The number of nodes if the words have none.
const USUAL_NODES: u32 = 10_000;

const MOST_NODES: u32 = 1_000_000_000;

/// How much of a term is shown.
#[derive(Clone, Copy)]
pub(crate) struct Budget {
    /// The most nodes that are shown.
    pub(crate) nodes: u32,
    /// Whether bad addresses are marked in the text.
    pub(crate) marked: bool,
}

impl Budget {
    pub(crate) fn new(nodes: u32, marked: bool) -> Budget
        ensures { result ≡ budget marked nodes }
    {
        Budget { nodes, marked }
    }
}

fn is_mark(word: &str) -> bool
    ensures { result ≡ is_mark word.now }
{
    word == "marked"
}

fn counted(word: &str, marked: bool) -> Option<Budget>
    ensures { result ≡ counted marked word.now }
{
    let nodes = number_upto(word, MOST_NODES)?;
    Some(Budget::new(nodes, marked))
}

fn one_word(word: &str) -> Option<Budget>
    ensures { result ≡ budget_of (word.now ∷ []) }
{
    if is_mark(word) {
        return Some(Budget::new(USUAL_NODES, true));
    }
    counted(word, false)
}

fn two_words(nodes: &str, mark: &str) -> Option<Budget>
    ensures { result ≡ budget_of (nodes.now ∷ mark.now ∷ []) }
{
    if !is_mark(mark) {
        return None;
    }
    counted(nodes, true)
}

/// The budget that the last words of a command give: a number of nodes from 1 to
/// 1,000,000,000, which is 10,000 if it is left out, and then the word `marked` or nothing.
pub(crate) fn read_budget(words: &[String]) -> Option<Budget>
    ensures { result ≡ budget_of (map string_bytes words.now) }
{
    match words {
        [] => Some(Budget::new(USUAL_NODES, false)),
        [word] => one_word(word.as_str()),
        [nodes, mark] => two_words(nodes.as_str(), mark.as_str()),
        _ => None,
    }
}
