//! Files in memory, which fail at the calls that they are told.

ghost use Rattle.std.specs.Prelude.{◌≡◌, ◌↔◌, ◌+◌, ◌<◌, ◌≤◌, ℕ, List, length, map, IfErr, IfOk, IfSome, IsErrOf, IsTrue, MatchOption, MatchResult, string_bytes, Contains};
ghost use Rattle.away_top.specs.Host.{next_count, IsTooLong, Keeps, Rose, Stays};
ghost use Rattle.away_top.specs.MemoryFiles.{held_at, IsCountedFailure, IsAbsentName, IsNextFiles, IsSafeName};

use crate::{Files, ReadError};
use std::alloc::Global;
use std::marker::Model;

/// Files that are held in memory.
#[derive(Drop)]
pub struct MemoryFiles {
    held: Vec<(String, Vec<u8>)>,
    fails: Vec<u64>,
    calls: u64,
    faults: u64,
}

impl Model for MemoryFiles {
    ghost use Rattle.std.specs.Prelude.{map, string_bytes};
    ghost use Rattle.away_top.specs.MemoryFiles.{HeldFiles};

    ghost Value = { HeldFiles };

    ghost view = { λ m. record {
      held = map (λ pair. (string_bytes pair.0, pair.1.items)) m.held.items;
      fails = m.fails.items;
      calls = m.calls;
      faults = m.faults;
    } };
}

impl MemoryFiles {
    /// These pairs of name and bytes, of which the first counts where two have one name. The reads with these numbers,
    /// next_count from 1, fail.
    pub fn new(held: Vec<(String, Vec<u8>)>, fails: Vec<u64>) -> MemoryFiles
        ensures held { result.held ≡ map (λ pair. (string_bytes pair.0, pair.1.items)) held.items }
        ensures fails { result.fails ≡ fails.items }
        ensures calls { result.calls ≡ 0 }
        ensures faults { result.faults ≡ 0 }
    {
        MemoryFiles {
            held,
            fails,
            calls: 0,
            faults: 0,
        }
    }
}

impl Files for MemoryFiles {
    ghost held = { λ m. held_at m.held };

    ghost is_safe = { IsSafeName };

    ghost is_absent = { IsAbsentName };

    ghost faults = { λ m. m.faults };

    ghost read_leaves = { λ old _ new. IsNextFiles old new };

    ghost safe_is_told = { λ m name safe. safe.held };

    ghost absent_is_untold = { λ m name absent. absent };

    fn read(&mut self, alloc: Global, name: &str, limit: u64) -> Result<Vec<u8>, ReadError>
        // As of every implementation:
        ensures read { IsNextFiles self.old self.new }
        ensures kept { Keeps (held_at self.old.held) (held_at self.new.held) }
        ensures safe { Stays (IsSafeName self.old) (IsSafeName self.new) }
        ensures absent { Stays (IsAbsentName self.old) (IsAbsentName self.new) }
        ensures later { self.old.faults ≤ self.new.faults }
        ensures bytes { IfOk result
            (λ v. IfSome (held_at self.old.held name.now) (λ bytes. v.items ≡ bytes)) }
        ensures limit { IfOk result (λ v. length v.items ≤ limit) }
        ensures long { IfErr result (IsTooLong limit (held_at self.old.held name.now)) }
        ensures failed { IsErrOf result ReadError.Failed → Rose self.old.faults self.new.faults }
        ensures unsafe_name { IsErrOf result ReadError.Failed → IsSafeName self.old name.now → ⊥ }
        ensures absent_name { IsAbsentName self.old name.now → result ≡ Err ReadError.Failed }

        // And exactly:
        ensures listed { Contains self.old.fails (next_count self.old.calls)
            → IsCountedFailure self.old.faults result self.new.faults }
        ensures missing { ¬ (Contains self.old.fails (next_count self.old.calls))
            → held_at self.old.held name.now ≡ None
            → IsCountedFailure self.old.faults result self.new.faults }
        ensures too_long { (bytes : List ℕ)
            → ¬ (Contains self.old.fails (next_count self.old.calls))
            → held_at self.old.held name.now ≡ Some bytes → limit < length bytes
            → (result ≡ Err (ReadError.Long (limit + 1))) × (self.new.faults ≡ self.old.faults) }
        ensures whole { (bytes : List ℕ) → ¬ (Contains self.old.fails (next_count self.old.calls))
            → held_at self.old.held name.now ≡ Some bytes → length bytes ≤ limit
            → MatchResult result (λ v. v.items ≡ bytes) (λ error. error ≡ ReadError.NoMemory)
            × (self.new.faults ≡ self.old.faults) }
    {
        self.calls = self.calls.saturating_add(1);
        if is_listed(&self.fails, self.calls) {
            self.faults = self.faults.saturating_add(1);
            return Err(ReadError::Failed);
        }
        let Some(bytes) = find(&self.held, name) else {
            self.faults = self.faults.saturating_add(1);
            return Err(ReadError::Failed);
        };
        if bytes.len() as u64 > limit {
            return Err(ReadError::Long(limit + 1));
        }
        match bytes.to_vec(alloc) {
            Ok(copy) => Ok(copy),
            Err(_) => Err(ReadError::NoMemory),
        }
    }
}

// Whether this call is to fail.
fn is_listed(fails: &[u64], call: u64) -> bool
    ensures { IsTrue result ↔ Contains fails.now call }
{
    fails.contains(&call)
}

// What a name holds.
fn find<'a>(held: &'a [(String, Vec<u8>)], name: &str) -> Option<&'a [u8]>
    ensures { MatchOption result
        (held_at (map (λ pair. (string_bytes pair.0, pair.1.items)) held.now) name.now ≡ None)
        (λ bytes. held_at (map (λ pair. (string_bytes pair.0, pair.1.items)) held.now) name.now
        ≡ Some bytes.now) }
{
    let mut rest = held;
    while let [(key, bytes), others @ ..] = rest {
        if key.as_str() == name {
            return Some(bytes);
        }
        rest = others;
    }
    None
}
