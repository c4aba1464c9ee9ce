//! Names by their places.
ghost use Rattle.std.specs.Prelude.{◌≡◌, ◌<◌, ◌^◌, length, IfOk};
ghost use Rattle.catalog.specs.Index.{place_in};

use list_types::{Listed, Text};
use std::alloc::{AllocError, Global};
use std::collections::HashMap;
use std::marker::Model;

/// Names in order, with the place of each. Contracts see them as a list.
#[derive(Drop)]
pub(crate) struct Index {
    names: Listed<Text>,
    places: HashMap<String, u32>,
}

impl Model for Index {
    ghost use Rattle.std.specs.Prelude.{List, ℕ, ◌<◌, ◌^◌, length};
    ghost use Rattle.catalog.specs.Index.{IsIndex};

    ghost Value = { List (List ℕ) };

    ghost view = { λ s. s.names };

    ghost invariant = { λ s. IsIndex s.names s.places × (length s.names < 2 ^ 32) };
}

impl Index {
    /// These names, which may be so many that each place is a number of 32 bits.
    pub(crate) fn new(alloc: Global, names: Listed<Text>) -> Result<Index, AllocError>
        requires { length names < 2 ^ 32 }
        ensures { IfOk result (λ made. made ≡ names) }
    {
        let mut places = HashMap::new(alloc);
        for (i, name) in names.as_slice().iter().enumerate() {
            if places.contains_key(name.as_str()) {
                continue;
            }
            let key = String::from_str(alloc, name.as_str())?;
            places.insert(key, i as u32)?;
        }
        Ok(Index { names, places })
    }

    /// The place of the first name that is this one. It takes no walk.
    pub(crate) fn place(&self, name: &str) -> Option<u32>
        ensures { result ≡ place_in self.now name.now }
    {
        self.places.get(name).copied()
    }

    /// The same names.
    pub(crate) fn copy(&self, alloc: Global) -> Result<Index, AllocError>
        ensures { IfOk result (λ copy. copy ≡ self.now) }
    {
        Index::new(alloc, self.names.clone()?)
    }

    /// How many names there are.
    pub(crate) fn len(&self) -> usize
        ensures { result ≡ length self.now }
    {
        self.names.len()
    }
}
