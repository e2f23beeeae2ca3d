// The requests of a process, by their references.
ghost use Rattle.std.specs.Prelude.{◌≡◌, ◌<◌, ◌++◌, ◌∷◌, [], length, OnErr, OnOk, IfOk};
ghost use Rattle.std.specs.BTreeMap.{IsUnchanged};
ghost use Rattle.std.specs.Option.{option_copied};
ghost use Rattle.link_graph.specs.Lists.{links_at};
ghost use Rattle.link_graph.specs.Requests.{requests_in};
ghost use Rattle.link_graph.specs.Seen.{shown_request};
ghost use Rattle.wait_requests.specs.Inner.Asking.{before_words, target_at, IsNoted};

use crate::tails::{behind_first, write_tail};
use link_graph::{Graph, Request, request_in};
use std::alloc::{AllocError, Global};
use std::collections::BTreeMap;
use std::marker::Model;

/// The requests of a process, in the order of its link list. Contracts see the list of them. They are looked up by the
/// order of their references, since whoever writes a dump could give all of them one hash.
#[derive(Drop)]
pub(crate) struct Asked<'a> {
    requests: Vec<Request<'a>>,
    // The place of the first request with what stands behind the first number of its reference.
    places: BTreeMap<&'a [u8], usize>,
}

impl<'a> Model for Asked<'a> {
    ghost use Rattle.std.specs.Prelude.{List, map};
    ghost use Rattle.link_graph.specs.Requests.{Request};
    ghost use Rattle.link_graph.specs.Seen.{shown_request};
    ghost use Rattle.wait_requests.specs.Inner.Asking.{IsRequestTree};

    ghost Value = { List Request };

    ghost view = { λ a. map shown_request a.requests.items };

    ghost invariant = { λ a. IsRequestTree a.places (map shown_request a.requests.items) };
}

// Notes the place of a request with a reference, if it is the first with what stands behind the first number of that.
fn note_place<'a>(
    places: &mut BTreeMap<&'a [u8], usize>,
    reference: &'a [u8],
    place: usize,
) -> Result<(), AllocError>
    ensures noted { OnOk result (IsNoted places.old places.new reference.now place) }
    ensures kept { OnErr result (IsUnchanged places.old places.new) }
{
    let Some(tail) = behind_first(reference) else {
        return Ok(());
    };
    match places.get(tail) {
        Some(_) => Ok(()),
        None => {
            places.insert(tail, place)?;
            Ok(())
        }
    }
}

impl<'a> Asked<'a> {
    // No requests.
    fn new(alloc: Global) -> Asked<'a>
        ensures { result ≡ [] }
    {
        Asked {
            requests: Vec::new(alloc),
            places: BTreeMap::new(alloc),
        }
    }

    // Appends a request.
    fn push(&mut self, request: Request<'a>) -> Result<(), AllocError>
        ensures { OnOk result (self.new ≡ self.old ++ shown_request request.entry ∷ []) }
    {
        self.requests.reserve(1)?;
        note_place(&mut self.places, request.reference, self.requests.len())?;
        self.requests.push_reserved(request);
        Ok(())
    }

    /// The requests of a process.
    pub(crate) fn of(alloc: Global, graph: &'a Graph<'_>, p: usize) -> Result<Asked<'a>, AllocError>
        requires { p < length graph.now }
        ensures { IfOk result (λ asked. asked ≡ requests_in (links_at graph.now p)) }
    {
        let mut asked = Asked::new(alloc);
        for n in 0..graph.count(p) {
            if let Some(request) = request_in(&graph.entry(p, n)) {
                asked.push(request)?;
            }
        }
        Ok(asked)
    }

    /// How many requests there are.
    pub(crate) fn len(&self) -> usize
        ensures { result ≡ length self.now }
    {
        self.requests.len()
    }

    /// How many requests stand before the first whose reference has these words. The text is overwritten.
    pub(crate) fn before(&self, words: &[u8], text: &mut Vec<u8>) -> Result<usize, AllocError>
        ensures { IfOk result (λ place. place ≡ before_words self.now words.now) }
    {
        write_tail(text, words)?;
        match self.places.get(text.as_slice()) {
            Some(place) => Ok(*place),
            None => Ok(self.requests.len()),
        }
    }

    /// Whom the request at a place asks.
    pub(crate) fn target(&self, place: usize) -> Option<&'a [u8]>
        ensures { option_copied result ≡ target_at self.now place }
    {
        Some(self.requests.get(place)?.target)
    }
}
