//! Records and lists of them.
ghost use Rattle.std.specs.Prelude.{◌≡◌, ◌++◌, [], ◌∷◌, ◌≤◌, ◌<◌, ℕ, length, IfOk, OnOk, OnErr};

use list_types::Bytes;
use std::alloc::{AllocError, Global};

/// A list of records, the oldest first.
#[derive(Debug, Drop)]
pub struct Records {
    inner: Vec<Bytes>,
}

impl Records {
    ghost use Rattle.record_log.specs.RecordLists.{list_of, slots_of};

    /// No records.
    pub fn new(alloc: Global) -> Records
        ensures { list_of result ≡ [] }
    {
        Records {
            inner: Vec::new(alloc),
        }
    }

    /// How many records there are.
    pub fn len(&self) -> usize
        ensures { result ≡ length (list_of self.now) }
    {
        self.inner.len()
    }

    /// The records, the oldest first.
    pub fn as_slice(&self) -> &[Bytes]
        ensures { result.now ≡ list_of self.now }
    {
        &self.inner
    }

    /// Adds a record at the end.
    pub fn push(&mut self, record_bytes: Bytes) -> Result<(), AllocError>
        ensures ok { OnOk result (list_of self.new ≡ list_of self.old ++ record_bytes ∷ []) }
        ensures err { OnErr result (list_of self.new ≡ list_of self.old) }
    {
        self.inner.push(record_bytes)?;
        Ok(())
    }

    /// Makes room for one record more.
    pub(crate) fn reserve(&mut self) -> Result<(), AllocError>
        ensures same { list_of self.new ≡ list_of self.old }
        ensures slots { OnOk result (0 < slots_of self.new) }
        ensures kept { slots_of self.old ≤ slots_of self.new }
    {
        self.inner.reserve(1)
    }

    /// Adds a record where room was made.
    pub(crate) fn push_reserved(&mut self, record_bytes: Bytes)
        requires { 0 < slots_of self.old }
        ensures { list_of self.new ≡ list_of self.old ++ record_bytes ∷ [] }
    {
        self.inner.push_reserved(record_bytes);
    }
}
