//! The types that share their names with the functions of [`reading`](crate::reading).

use crate::elems::Elems;
use crate::opening::Joined;
pub use binary_payloads::covers::Cover;

/// An element of a dump's text. The slices are parts of the text that was read.
#[derive(Clone, Copy, Debug, PartialEq, Eq)]
pub enum Elem<'a> {
    /// The empty list.
    Nil,
    /// A small integer: an optional minus and digits.
    Small(&'a [u8]),
    /// An atom: its bytes.
    Atom(&'a [u8]),
    /// A pid, from `<` to `>`.
    Pid(&'a [u8]),
    /// A port, from `<` to `>`.
    Port(&'a [u8]),
    /// A reference to the heap cell with this address.
    Ref(u64),
}

/// The form of a heap cell. The slices are parts of the text that was read, and lengths are in bytes.
#[derive(Drop)]
pub enum Form<'a> {
    /// A cons cell: its head and its tail.
    List(Elem<'a>, Elem<'a>),
    /// A tuple: its elements.
    Tuple(Elems<'a>),
    /// A float: its text.
    Float(&'a [u8]),
    /// A big integer: its text, in decimal, or in hex after `16#`.
    Long(&'a [u8]),
    /// A pid of another node, from `<` to `>`.
    Pid(&'a [u8]),
    /// A port of another node, from `<` to `>`.
    Port(&'a [u8]),
    /// An external term: its length, and the characters that write its bytes.
    Ext(u64, &'a [u8]),
    /// A heap binary: its length, and the characters that write its bytes.
    HeapBin(u64, &'a [u8]),
    /// A reference to a reference-counted binary: the binary's address, the offset in it and the size.
    RefBin(u64, u64, u64),
    /// A sub binary: the address of the binary that it is a part of, the offset in it and the size.
    SubBin(u64, u64, u64),
    /// A flat map: the element that leads to the tuple of its keys, and the values.
    Flat(Elem<'a>, Elems<'a>),
    /// The root of a hash map: its stated size, and its children.
    Hash(u64, Elems<'a>),
    /// An inner node of a hash map: its children.
    Node(Elems<'a>),
}

/// An element of a form, and where its spelling stands.
#[derive(Clone, Copy, Debug, PartialEq, Eq)]
pub struct PlacedElem<'a> {
    /// The number of bytes in the form's text before the spelling.
    pub at: usize,
    /// The number of bytes of the spelling.
    pub len: usize,
    /// The element.
    pub elem: Elem<'a>,
}

/// How a form begins, and where its elements are read.
#[derive(Drop)]
pub enum Opened<'a> {
    /// A cons cell: its head and its tail.
    List(PlacedElem<'a>, PlacedElem<'a>),
    /// A tuple: its elements.
    Tuple(Joined<'a>),
    /// A flat map: the element that leads to the tuple of its keys, and the values.
    Flat(PlacedElem<'a>, Joined<'a>),
    /// The root of a hash map: its stated size, and its children.
    Hash(u64, Joined<'a>),
    /// An inner node of a hash map: its children.
    Node(Joined<'a>),
    /// A form without elements.
    Plain(Form<'a>),
}
