// A root, and what it is.

use term_forms::shapes::Elem;

/// What a root is. The slices are parts of the body.
#[derive(Clone, Copy)]
pub enum What<'a> {
    /// A term: the element that spells it.
    Term(Elem<'a>),
    /// A word of the stack that is no term: what follows its `S`.
    Info(&'a [u8]),
    /// A message in the external format: what stands before its last `:`, with the `D`.
    Dist(&'a [u8]),
    /// A text that isn't read.
    Unread,
}

/// A root of a process.
#[derive(Clone, Copy)]
pub struct Root<'a> {
    /// The number of bytes of the body before the root: where
    /// its line begins, or, for a token, where the token does.
    pub at: usize,
    /// On the stack, what stands before the first `:` of the line, and nothing if the root isn't
    /// read; `e` in the dictionary; in the mailbox `m` for a message, and `t` for a token.
    pub label: &'a [u8],
    /// What the root is.
    pub what: What<'a>,
}
