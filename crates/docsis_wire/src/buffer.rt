//! The bytes of a payload or of a frame, which contracts see as a list.
ghost use Rattle.std.specs.Prelude.{◌≡◌, ◌≤◌, ◌↔◌, ◌-◌, ◌++◌, ℕ, List, [], length, vec_len};
ghost use Rattle.std.specs.Prelude.{take, drop, replicate, IsTrue};

use std::alloc::{AllocError, Global};
use std::fmt;
use std::marker::Model;

/// Room for so many bytes more than twice those that there are is never worth a copy.
const SPARE_MAX: usize = 64;

/// Bytes that are owned: a segment's payload or a whole frame. Contracts see the list of the bytes.
///
/// It is made from a `Vec` and gives it back, and neither takes memory. Bytes can be left out at
/// the front, and the others stay where they are.
#[derive(Debug, Drop)]
pub struct Bytes {
    bytes: Rest,
    skipped: Unseen,
}

/// What is left of some bytes. Those that are left out aren't printed, since they may be of another
/// flow.
#[derive(Drop)]
struct Rest {
    all: Vec<u8>,
    /// How many of them are left out at the front.
    skipped: usize,
}

impl fmt::Debug for Rest {
    fn fmt<W: fmt::Write>(&self, f: &mut fmt::Formatter<W>) -> fmt::Result {
        self.all.as_slice()[self.skipped.min(self.all.len())..].fmt(f)
    }
}

/// How many bytes are left out is no business of who prints the others: it is printed as 0,
/// whatever memory they stand in.
#[derive(Drop)]
struct Unseen;

impl fmt::Debug for Unseen {
    fn fmt<W: fmt::Write>(&self, f: &mut fmt::Formatter<W>) -> fmt::Result {
        0.fmt(f)
    }
}

impl Model for Bytes {
    ghost Value = { List ℕ };

    ghost view = { λ b. drop b.bytes.skipped b.bytes.all.items };

    ghost invariant = { λ b. b.bytes.skipped ≤ length b.bytes.all.items };
}

impl From<Vec<u8>> for Bytes {
    ghost from_gives = { λ vec bytes. bytes ≡ vec.items };

    fn from(bytes: Vec<u8>) -> Bytes {
        behind(bytes, 0)
    }
}

impl Bytes {
    /// The bytes as a `Vec`. Where some are left out at the front, the others are moved there.
    pub fn into_vec(self) -> Vec<u8>
        ensures { result.items ≡ self }
    {
        let Rest {
            all: mut bytes,
            skipped,
        } = self.bytes;
        if skipped > 0 {
            let left = bytes.len() - skipped;
            bytes.rotate_left(skipped);
            bytes.truncate(left);
        }
        bytes
    }

    pub fn as_slice(&self) -> &[u8]
        ensures { result.now ≡ self.now }
    {
        &self.bytes.all.as_slice()[self.bytes.skipped..]
    }

    pub fn len(&self) -> usize
        ensures { result ≡ length self.now }
    {
        self.bytes.all.len() - self.bytes.skipped
    }

    pub fn is_empty(&self) -> bool
        ensures { IsTrue result ↔ (self.now ≡ []) }
    {
        self.len() == 0
    }

    /// The bytes without so many at the front. No byte is moved.
    pub fn without_front(self, count: usize) -> Bytes
        requires { count ≤ length self }
        ensures { result ≡ drop count self }
    {
        let Rest { all, skipped } = self.bytes;
        behind(all, skipped + count)
    }

    /// The bytes with zeros in the place of all behind the first so many. No byte is moved.
    pub fn with_zeros_behind(self, count: usize) -> Bytes
        ensures { result ≡ take count self ++ replicate (length self - count) 0 }
    {
        let Rest { mut all, skipped } = self.bytes;
        if count >= all.len() - skipped {
            return behind(all, skipped);
        }
        put_zeros(&mut all, skipped + count);
        behind(all, skipped)
    }

    /// The bytes in memory of just their size, where what they stand in has room for more than
    /// twice as many and 64 more: they are copied, and that memory is freed. Where an allocation
    /// fails they stay where they are.
    pub fn without_spare_room(self, alloc: Global) -> Bytes
        ensures { result ≡ self }
    {
        let room = self.bytes.all.capacity();
        if room <= self.len().saturating_mul(2).saturating_add(SPARE_MAX) {
            return self;
        }
        match Vec::from_slice(alloc, self.as_slice()) {
            Ok(copied) => Bytes::from(copied),
            Err(AllocError) => self,
        }
    }
}

/// Puts zeros in the place of all bytes behind the first so many.
fn put_zeros(bytes: &mut [u8], count: usize)
    requires { count ≤ length bytes.old }
    ensures { bytes.new ≡ take count bytes.old ++ replicate (length bytes.old - count) 0 }
{
    bytes[count..].fill(0);
}

/// Bytes of which so many are left out at the front.
fn behind(all: Vec<u8>, skipped: usize) -> Bytes
    requires { skipped ≤ vec_len all }
    ensures { result ≡ drop skipped all.items }
{
    Bytes {
        bytes: Rest { all, skipped },
        skipped: Unseen,
    }
}
