//! Runs over files and a sink in memory.

ghost use Rattle.std.specs.Prelude.{◌≡◌, ◌++◌, ℕ, IsSome, List, [], ◌∷◌, None, Some, codes, map, string_bytes};
ghost use Rattle.away_top.specs.declared.compile.Wanted.{Wanted};
ghost use Rattle.away_top.specs.declared.over_tables.program.Runnable.{Runnable};
ghost use Rattle.away_top.specs.Arguments.{bound_of};
ghost use Rattle.away_top.specs.Commands.{course};
ghost use Rattle.away_top.specs.InMemory.{
  AcceptedIn,
  Answered,
  Batched,
  BeginsWith,
  Ended,
  Expanded,
  Explained,
  Formatted,
  HoldsCertified,
  InlinedIn,
  Judged,
  MayBatch,
  MayCheck,
  MayCompile,
  MayExpand,
  MayExplain,
  MayFormat,
  MayInline,
  MayRun,
  MayUntail,
  Shown,
  Translated,
  Untailed,
  Unread,
};
ghost use Rattle.away_top.specs.MemoryFiles.{held_at};
ghost use Rattle.away_top.specs.Programs.{word_of};
ghost use Rattle.away_top.specs.UnrollInMemory.{AnsweredInTurns, MayRunUnrolled, MayUnroll, UnrolledIn};

use crate::{MemoryFiles, MemorySink, Status, away};
use std::alloc::Global;

/// Runs `away` over files and a sink in memory. Where no read or write is to fail, only want of memory or of room is in the way of an
/// end that the held files lead to. Where the file that is read first isn't held, it is so of its read fault.
///
/// Where the words are those of `compile` or `certify`, and the files that they name are held and read as a schema and a function that break no
/// rule, that end is a translation.
/// Where they are those of `batch`, and the table is one of the schema whose rows are calls of the function, it is a query for these calls.
/// Where they are those of `check`, it is the verdict on its files, where they are those of `sql` or `fn`, the answer of the query or
/// the function, where they are those of `rows`, the rows of the query, where they are those of `format`, the text of the function, where they
/// are those of `untail`, the function with its calls of itself as turns of a loop, where they are those of `expand`, the main function with
/// its calls of the others expanded, where they are those of `inline`, the query with its calls of the function as subqueries, where they are
/// those of `unroll`, a query in which one iteration runs several turns, where they are those of `unrolled`, the answer of that query, where
/// they are those of `explain`, the place and the reason of a refusal, or the counts of the function or the query, and where they are `demo`
/// and a number, a summary of that case.
pub fn away_in_memory(
    alloc: Global,
    words: &[String],
    files: &mut MemoryFiles,
    out: &mut MemorySink,
) -> Status
    ensures every { files.old.fails ≡ [] → out.old.fails ≡ []
        → Ended files.old out.old out.new result (map string_bytes words.now) }
    ensures missing { (name : List ℕ)
        → ((text : List ℕ) → BeginsWith name (course (map string_bytes words.now) text))
        → held_at files.old.held name ≡ None → out.old.fails ≡ []
        → Unread out.old out.new result name }
    ensures compile { (wanted : Wanted) (tables function : List ℕ)
        → MayCompile files.old wanted (map string_bytes words.now) tables function
        → out.old.fails ≡ [] → Translated wanted out.old out.new result tables function }
    ensures batch { (tables function table : List ℕ)
        → MayBatch files.old (map string_bytes words.now) tables function table
        → out.old.fails ≡ [] → Batched out.old out.new result tables function table }
    ensures check { (schema func query cert tables function asked forms : List ℕ)
        → map string_bytes words.now ≡ codes "check" ∷ schema ∷ func ∷ query ∷ cert ∷ []
        → MayCheck files.old schema func query cert tables function asked forms → out.old.fails ≡ []
        → Judged out.old out.new result tables function asked forms }
    ensures format { (func function : List ℕ)
        → map string_bytes words.now ≡ codes "format" ∷ func ∷ []
        → MayFormat files.old func function → out.old.fails ≡ []
        → Formatted out.old out.new result function }
    ensures untail { (schema func tables function : List ℕ)
        → map string_bytes words.now ≡ codes "untail" ∷ schema ∷ func ∷ []
        → MayUntail files.old schema func tables function → out.old.fails ≡ []
        → Untailed out.old out.new result tables function }
    ensures expand { (schema main tables : List ℕ) (others functions : List (List ℕ))
        → map string_bytes words.now ≡ codes "expand" ∷ schema ∷ main ∷ others
        → MayExpand files.old schema main others tables functions → out.old.fails ≡ []
        → Expanded out.old out.new result tables functions }
    ensures inline { (schema query func tables calling function : List ℕ)
        → map string_bytes words.now ≡ codes "inline" ∷ schema ∷ query ∷ func ∷ []
        → MayInline files.old schema query func tables calling function → out.old.fails ≡ []
        → InlinedIn out.old out.new result tables calling function }
    ensures unroll { (turns schema func tables function : List ℕ)
        → map string_bytes words.now ≡ codes "unroll" ∷ turns ∷ schema ∷ func ∷ []
        → MayUnroll files.old turns schema func tables function → out.old.fails ≡ []
        → UnrolledIn out.old out.new result turns tables function }
    ensures unrolled { (bound turns schema func dir : List ℕ) (args : List (List ℕ))
        → map string_bytes words.now
        ≡ codes "unrolled" ∷ bound ∷ turns ∷ schema ∷ func ∷ dir ∷ args
        → MayRunUnrolled files.old bound turns schema func dir args → out.old.fails ≡ []
        → AnsweredInTurns files.old out.old out.new result bound turns schema func dir args }
    ensures explain { (schema func tables function : List ℕ)
        → map string_bytes words.now ≡ codes "explain" ∷ schema ∷ func ∷ []
        → (may : MayExplain files.old schema func tables function) → out.old.fails ≡ []
        → Explained out.old out.new result func may.fit_schema.is.schema function }
    ensures demo { (word : List ℕ) → map string_bytes words.now ≡ codes "demo" ∷ word ∷ []
        → IsSome (bound_of word)
        → out.old.fails ≡ [] → Shown out.old out.new result word }
    ensures run { (what : Runnable) (bound schema file dir : List ℕ) (args : List (List ℕ))
        → map string_bytes words.now ≡ word_of what ∷ bound ∷ schema ∷ file ∷ dir ∷ args
        → MayRun what files.old bound schema file dir args → out.old.fails ≡ []
        → Answered what files.old out.old out.new result bound schema file dir args }
{
    away(alloc, words, files, out)
}

/// Certifies a function, and has `check` judge what was written. Where the files of the second call hold the line, the text behind it, and the
/// schema and the function of the first, and are no longer than is read, it accepts: only want of memory or of room for its line is in the way.
pub fn certified_is_accepted(
    alloc: Global,
    certify: &[String],
    files: &mut MemoryFiles,
    output: &mut MemorySink,
    check: &[String],
    others: &mut MemoryFiles,
    verdict: &mut MemorySink,
) -> (Status, Status)
    ensures { (first second schema func query cert tables function written : List ℕ)
        → map string_bytes certify.now ≡ codes "certify" ∷ first ∷ second ∷ []
        → held_at files.old.held first ≡ Some tables → held_at files.old.held second ≡ Some function
        → result.0 ≡ Status.Done → output.new.bytes ≡ output.old.bytes ++ written
        → map string_bytes check.now ≡ codes "check" ∷ schema ∷ func ∷ query ∷ cert ∷ []
        → HoldsCertified written others.old schema func query cert tables function
        → verdict.old.fails ≡ []
        → AcceptedIn verdict.old verdict.new result.1 }
{
    let certified = away(alloc, certify, files, output);
    let judged = away_in_memory(alloc, check, others, verdict);
    (certified, judged)
}
