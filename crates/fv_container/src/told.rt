//! Entries that only clauses read.

ghost use Rattle.std.specs.Prelude.{◌≡◌, List, Option, Bool};
ghost use Rattle.std.specs.Borrow.{ftrue};
ghost use Rattle.fv_container.specs.declared.entry.Entry.{Entry};

use std::marker::{Model, PhantomData};

/// How entries are read off a value, and of which regions what is kept in memory is as these say.
pub(crate) trait Names<X> {
    ghost entries: { X → List (Option Entry) };

    ghost sure: { X → List Bool };
}

/// The entries of a container, and of which regions what is kept in memory is as these say. Only clauses read them: it has no bytes
/// and owns nothing.
#[derive(Drop)]
pub(crate) struct Told {
    marker: PhantomData<u8>,
    pub(crate) ghost entries: { List (Option Entry) },
    pub(crate) ghost sure: { List Bool },
}

impl Model for Told {
    ghost also_owns = { λ _. ftrue };
}

impl Told {
    /// What a value names.
    pub(crate) fn of<X, M: Names<X>>(x: &X) -> Told
        ensures { (result.entries ≡ M.entries x.now) × (result.sure ≡ M.sure x.now) }
    {
        let _ = x;
        Told {
            marker: PhantomData,
        }
    }
}
