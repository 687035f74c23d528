//! The bytes from an address on, and the storage at the first of them.
ghost use Rattle.std.specs.Prelude.{◌≡◌};
ghost use Rattle.explain_who.specs.Place.{equal_front, same_bytes, same_holder, same_storage, skipped};

use crate::takers::Taken;
use arrayvec::ArrayVec;
use vsm_model::Subpool;

/// The most bytes of a reading.
pub(crate) type PlaceBytes = ArrayVec<u8, 256>;

/// The most bytes of a place that a line shows.
pub(crate) const SHOWN_BYTES: usize = 32;

/// What is read at an address.
#[derive(Clone, Drop)]
pub(crate) struct Place {
    /// Where the bytes begin.
    pub address: u32,
    /// How many bytes are asked for.
    pub count: u16,
    /// The bytes; `None` if one of them isn't in an assigned page.
    pub bytes: Option<PlaceBytes>,
    /// The subpool that the page of the address belongs to; `None` if it isn't assigned.
    pub subpool: Option<Subpool>,
    /// How the storage at the address is taken.
    pub taken: Taken,
}

/// Whether two subpools are the same, or both are missing.
fn same_holder(a: Option<Subpool>, b: Option<Subpool>) -> bool
    ensures { result ≡ same_holder a b }
{
    match (a, b) {
        (None, None) => true,
        (Some(a), Some(b)) => a.number == b.number && a.owner == b.owner,
        _ => false,
    }
}

/// The number of bytes at the front that are equal in both.
fn equal_front(a: &[u8], b: &[u8]) -> usize
    ensures { result ≡ equal_front a.now b.now }
{
    let end = a.len().min(b.len());
    for i in 0..end {
        if a[i] != b[i] {
            return i;
        }
    }
    end
}

impl Place {
    /// Whether the bytes of two places are the same, or both are missing.
    pub(crate) fn same_bytes(&self, other: &Place) -> bool
        ensures { result ≡ same_bytes self.now.bytes other.now.bytes }
    {
        match (&self.bytes, &other.bytes) {
            (None, None) => true,
            (Some(a), Some(b)) => a.as_slice() == b.as_slice(),
            _ => false,
        }
    }

    /// Whether the storage of two places is the same.
    pub(crate) fn same_storage(&self, other: &Place) -> bool
        ensures { result ≡ same_storage self.now other.now }
    {
        same_holder(self.subpool, other.subpool) && self.taken.is_same(&other.taken)
    }

    /// How many bytes a line leaves out at the front: of more than 32, all before the first that differs.
    pub(crate) fn skipped(&self, other: &Place) -> usize
        ensures { result ≡ skipped self.now.count self.now.bytes other.now.bytes }
    {
        if self.count as usize <= SHOWN_BYTES {
            return 0;
        }
        match (&self.bytes, &other.bytes) {
            (Some(a), Some(b)) => equal_front(a.as_slice(), b.as_slice()),
            _ => 0,
        }
    }
}
