// What the outside is asked for: files by name, and a sink for the output.
ghost use Rattle.std.specs.Prelude.{◌≡◌, ℕ, ◌+◌, ◌<◌, ◌≤◌, List, length, Err, IfOk, IfErr, None, OnOk, OnErr, IfSome, IsSome, IsErrOf};
ghost use Rattle.std.specs.declared.option.Option.{Option};
ghost use Rattle.std.specs.Io.KnownBytes.{Appends};
ghost use Rattle.away_top.specs.Host.{Rose, Keeps, Stays, IsTooLong, AppendsPrefix, Fills, next_count};
ghost use Rattle.away_top.specs.declared.host.ReadError.TheVariants.{Failed};

use std::alloc::{AllocError, AllocFailed, Global};
use thiserror::Error;

/// Why a file isn't read.
#[derive(Clone, Copy, Debug, PartialEq, Eq, Error)]
pub enum ReadError {
    #[error("the file cannot be read")]
    Failed,
    /// So many bytes were taken, which are more than the limit.
    #[error("the file is too long: {0} bytes were taken")]
    Long(u64),
    #[error("no memory was left")]
    NoMemory,
}

/// Files by name.
pub trait Files {
    /// What a name holds, where it is told.
    ghost held: { Self → List ℕ → Option (List ℕ) };

    /// The names whose read doesn't fail.
    ghost is_safe: { Self → List ℕ → Type 0 };

    /// The names that are known to hold nothing: their read fails.
    ghost is_absent: { Self → List ℕ → Type 0 };

    /// How many reads have failed; at 2^64 - 1 it stands.
    ghost faults: { Self → ℕ };

    /// What a read of this name may leave. So the states before a run and after it tell which names were read, and in
    /// which order.
    ghost read_leaves: { Self → List ℕ → Self → Type 0 };

    /// All bytes of a file that has at most so many.
    fn read(&mut self, alloc: Global, name: &str, limit: u64) -> Result<Vec<u8>, ReadError>
        ensures read { read_leaves self.old name.now self.new }
        ensures kept { Keeps (held self.old) (held self.new) }
        ensures safe { Stays (is_safe self.old) (is_safe self.new) }
        ensures absent { Stays (is_absent self.old) (is_absent self.new) }
        ensures later { faults self.old ≤ faults self.new }
        ensures bytes { IfOk result
            (λ v. IfSome (held self.old name.now) (λ bytes. v.items ≡ bytes)) }
        ensures limit { IfOk result (λ v. length v.items ≤ limit) }
        ensures long { IfErr result (IsTooLong limit (held self.old name.now)) }
        ensures failed { IsErrOf result Failed → Rose (faults self.old) (faults self.new) }
        ensures unsafe_name { IsErrOf result Failed → is_safe self.old name.now → ⊥ }
        ensures absent_name { is_absent self.old name.now → result ≡ Err Failed };

    /// A safe name is told.
    ghost safe_is_told: { (files : Self) (name : List ℕ) → is_safe files name → IsSome (held files name) };

    /// An absent name is told to hold nothing.
    ghost absent_is_untold: { (files : Self) (name : List ℕ) → is_absent files name → held files name ≡ None };
}

/// A piece isn't written, or not whole.
#[derive(Clone, Copy, Debug, PartialEq, Eq, Error)]
#[error("the output cannot be written")]
pub struct WriteFailed;

/// Where output goes.
pub trait Sink {
    /// All bytes that were written, where it is told.
    ghost written: { Self → Option (List ℕ) };

    /// So many bytes can be written with no fault.
    ghost safe_room: { Self → ℕ };

    /// How many writes have failed; at 2^64 - 1 it stands.
    ghost faults: { Self → ℕ };

    /// How many writes there were; at 2^64 - 1 it stands.
    ghost writes: { Self → ℕ };

    /// Writes all of the piece.
    fn write(&mut self, piece: &[u8]) -> Result<(), WriteFailed>
        ensures whole { OnOk result (Appends (written self.old) (written self.new) piece.now) }
        ensures part { OnErr result
            (AppendsPrefix (written self.old) (written self.new) piece.now) }
        ensures counted { writes self.new ≡ next_count (writes self.old) }
        ensures later { faults self.old ≤ faults self.new }
        ensures failed { OnErr result (Rose (faults self.old) (faults self.new)) }
        ensures room { 0 < length piece.now → length piece.now ≤ safe_room self.old
            → Fills result (safe_room self.old) (safe_room self.new) (length piece.now) };
}
