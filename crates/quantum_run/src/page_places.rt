// Places for pages, by frame.
ghost use Rattle.std.specs.Prelude.{◌≡◌, ◌≤◌, ◌<◌, length, replicate, slice_get, slice_set, IfOk};
ghost use Rattle.std.specs.Prelude.{Some, None};
ghost use Rattle.std.specs.Vec.{vec_capacity};
ghost use Rattle.quantum_run.specs.PagePlaces.{filled_up};

use page_store::Page;
use std::alloc::{AllocError, Global};
use std::marker::Model;

/// So many places for pages. Contracts see what stands at each, None or a page.
///
/// Their memory is taken at once, and first written when a page comes or a thread runs: most
/// groups have few threads, and the places of the others cost nothing.
#[derive(Drop)]
pub(crate) struct Places {
    // the places that are written; the others are empty
    pub(crate) pages: Vec<Option<Page>>,
    pub(crate) count: u32,
}

impl Model for Places {
    ghost use Rattle.std.specs.Prelude.{List, Option, ℕ, ◌≤◌, length};
    ghost use Rattle.std.specs.Vec.{vec_capacity};
    ghost use Rattle.quantum_run.specs.PagePlaces.{filled_up};

    ghost Value = { List (Option (List ℕ)) };

    ghost view = { λ p. filled_up p.pages.items p.count };

    ghost invariant = { λ p. (length p.pages.items ≤ p.count) × (p.count ≤ vec_capacity p.pages) };
}

impl Places {
    /// So many empty places.
    pub(crate) fn reserve(alloc: Global, count: u32) -> Result<Places, AllocError>
        ensures { IfOk result (λ p. p ≡ replicate count None) }
    {
        Ok(Places {
            pages: Vec::with_capacity(alloc, count as usize)?,
            count,
        })
    }

    /// A page comes to this place.
    pub(crate) fn put(&mut self, place: u32, page: Page)
        requires { place < length self.old }
        ensures { self.new ≡ slice_set self.old place (Some page) }
    {
        write_out(&mut self.pages, self.count);
        self.pages[place as usize] = Some(page);
    }

    /// What stands at this place goes.
    pub(crate) fn take(&mut self, place: u32) -> Option<Page>
        requires { place < length self.old }
        ensures page { slice_get self.old place ≡ Some result }
        ensures rest { self.new ≡ slice_set self.old place None }
    {
        write_out(&mut self.pages, self.count);
        self.pages[place as usize].take()
    }
}

/// Each place of so many is written afterwards.
pub(crate) fn write_out(pages: &mut Vec<Option<Page>>, count: u32)
    requires within { length pages.old.items ≤ count }
    requires room { count ≤ vec_capacity pages.old }
    ensures items { pages.new.items ≡ filled_up pages.old.items count }
    ensures room { vec_capacity pages.new ≡ vec_capacity pages.old }
{
    for _place in pages.len()..count as usize {
        pages.push_reserved(None);
    }
}
