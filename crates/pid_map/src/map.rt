ghost use Rattle.std.specs.Prelude.{◌≡◌, ◌≢◌, ◌%◌, ◌≤◌, ℕ, ◌<◌, length, get_or, set, replicate, IfOk};
ghost use Rattle.pid_map.specs.Chains.{Belongs, IsInMap, IsFind, IsAdded};

use crate::links::{Links, Relinks};
use std::alloc::{AllocError, Global};

/// A finite map from PIDs to places: the heads of its chains, one for each bucket. A PID's bucket is its remainder by their number, and the chain of a
/// bucket runs through the links of its places. A head is 0 where its bucket has no place. There is one bucket at least.
#[derive(Drop)]
pub struct PidMap {
    pub heads: Vec<u32>,
}

impl PidMap {
    /// A map without any place, over so many buckets, 4 bytes each. All memory of the map is taken here.
    pub fn new(alloc: Global, buckets: u32) -> Result<PidMap, AllocError>
        requires { 1 ≤ buckets }
        ensures { IfOk result (λ map. map.heads.items ≡ replicate buckets 0) }
    {
        let mut heads = Vec::with_capacity(alloc, buckets as usize)?;
        heads.resize(buckets as usize, 0)?;
        Ok(PidMap { heads })
    }

    /// Forgets all places. The buckets stay.
    pub fn clear(&mut self)
        ensures { self.new.heads.items ≡ replicate (length self.old.heads.items) 0 }
    {
        self.heads.fill(0);
    }

    /// The place with this PID. None exactly where the PID isn't in the map.
    pub fn find<L: Links>(&self, links: &L, pid: u64) -> Option<u32>
        requires some { 1 ≤ length self.now.heads.items }
        requires belongs { Belongs self.now.heads.items (L.key links.now) (L.next links.now) (L.is_place links.now) }
        ensures { (map : Belongs self.now.heads.items (L.key links.now) (L.next links.now) (L.is_place links.now)) → IsFind map pid result }
    {
        let mut at = self.head(pid);
        while at != 0 {
            if links.key_at(at) == pid {
                return Some(at);
            }
            at = links.next_at(at);
        }
        None
    }

    /// The first place of a PID's bucket, 0 for none: the link that a new place of the bucket gets.
    #[inline]
    pub fn head(&self, pid: u64) -> u32
        requires { 1 ≤ length self.now.heads.items }
        ensures { result ≡ get_or self.now.heads.items (pid % length self.now.heads.items) 0 }
    {
        self.heads[self.bucket(pid)]
    }

    /// Makes a place with a PID, whose link is the first place of its bucket, the first one. It takes no memory.
    #[inline]
    pub fn put(&mut self, pid: u64, at: u32)
        requires { 1 ≤ length self.old.heads.items }
        ensures { self.new.heads.items ≡ set self.old.heads.items (pid % length self.old.heads.items) at }
    {
        let bucket = self.bucket(pid);
        self.heads[bucket] = at;
    }

    // The bucket of a PID.
    #[inline]
    fn bucket(&self, pid: u64) -> usize
        requires { 1 ≤ length self.now.heads.items }
        ensures bucket { result ≡ pid % length self.now.heads.items }
        ensures below { result < length self.now.heads.items }
    {
        (pid % self.heads.len() as u64) as usize
    }

    /// Adds a place whose PID isn't in the map: it becomes the head of its bucket's chain, and its link the head from before. No other link changes, and
    /// no memory is taken.
    pub fn add<L: Relinks>(&mut self, links: &mut L, at: u32)
        requires some { 1 ≤ length self.old.heads.items }
        requires place { L.is_place links.old at }
        ensures added { (map : Belongs self.old.heads.items (L.key links.old) (L.next links.old) (L.is_place links.old)) → ((x : ℕ) → IsInMap map x → L.key links.old x ≢ L.key links.old at) → IsAdded map at self.new.heads.items (L.key links.new) (L.next links.new) (L.is_place links.new) }
        ensures linked { L.linked links.old links.new at (get_or self.old.heads.items (L.key links.old at % length self.old.heads.items) 0) }
        ensures buckets { length self.new.heads.items ≡ length self.old.heads.items }
    {
        let key = links.key_at(at);
        links.set_next(at, self.head(key));
        self.put(key, at);
    }
}
