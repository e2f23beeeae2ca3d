// The three kinds of bodies that hold roots.
ghost use Rattle.std.specs.Prelude.{◌≡◌, ◌*◌, ◌≤◌, List, length, All};
ghost use Rattle.std.specs.Iterator.{YieldsFirstBy, item_count};
ghost use Rattle.root_views.specs.Roots.{BodyRoot, IsInside};
ghost use Rattle.root_views.specs.Kinds.{roots_in, roots_tag};
ghost use Rattle.root_views.specs.Seen.{root};
ghost use Rattle.root_views.specs.Inner.Coming.{roots_to_come};

use crate::dictionaries::{DictRoots, dict};
use crate::mailboxes::{MailRoots, mail};
use crate::roots::Root;
use crate::stacks::{StackRoots, stack};
use std::marker::Model;

/// Which roots of a process a body holds.
#[derive(Clone, Copy)]
pub enum RootKind {
    /// The roots of a process's stack, in a `proc_stack` section.
    Stack,
    /// The roots of a process's dictionary, in a `proc_dictionary` section.
    Dict,
    /// The roots of a process's mailbox, in a `proc_messages` section.
    Mail,
}

impl RootKind {
    /// The tag of the sections that hold roots of this kind.
    pub fn tag(self) -> &'static [u8]
        ensures { result.now ≡ roots_tag self }
    {
        match self {
            RootKind::Stack => b"proc_stack",
            RootKind::Dict => b"proc_dictionary",
            RootKind::Mail => b"proc_messages",
        }
    }

    /// The roots of a body of this kind: at most two for each byte.
    pub fn roots(self, body: &[u8]) -> Roots<'_>
        ensures value { result ≡ roots_in self body.now }
        ensures inside { All (IsInside body.now) result }
        ensures few { length result ≤ 2 * length body.now }
    {
        let coming = match self {
            RootKind::Stack => Coming::Stack(stack(body)),
            RootKind::Dict => Coming::Dict(dict(body)),
            RootKind::Mail => Coming::Mail(mail(body)),
        };
        Roots { coming }
    }
}

// The roots of a body that are still to come, by its kind.
#[derive(Drop)]
enum Coming<'a> {
    Stack(StackRoots<'a>),
    Dict(DictRoots<'a>),
    Mail(MailRoots<'a>),
}

/// The roots of a body that are still to come. Contracts see the list of these roots.
#[derive(Drop)]
pub struct Roots<'a> {
    coming: Coming<'a>,
}

impl<'a> Model for Roots<'a> {
    ghost Value = { List BodyRoot };

    ghost view = { λ roots. roots_to_come roots.coming };
}

impl<'a> Iterator for Roots<'a> {
    type Item = Root<'a>;

    ghost next_gives = { YieldsFirstBy root (λ roots. roots) };

    ghost remaining = { item_count (λ roots. roots) };

    fn next(&mut self) -> Option<Root<'a>> {
        match &mut self.coming {
            Coming::Stack(roots) => roots.next(),
            Coming::Dict(roots) => roots.next(),
            Coming::Mail(roots) => roots.next(),
        }
    }
}
