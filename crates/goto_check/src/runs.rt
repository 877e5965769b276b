//! Numbers in a row, as far as each is the next one.

ghost use Rattle.std.specs.Prelude.{◌≡◌, ◌↔◌, ◌+◌, IsTrue, nat_eq};
ghost use Rattle.std.specs.List.{range_with_len};
ghost use Rattle.goto_check.specs.declared.runs.Run.TheVariants.{Empty};
ghost use Rattle.goto_check.specs.Runs.{run_of};
ghost use Rattle.goto_check.specs.Runs as spec;

/// What is known of numbers in a row.
#[derive(Clone, Copy)]
pub(crate) enum Run {
    /// There are none.
    Empty,
    /// Each is the next one, from the first to the last.
    FromTo(usize, usize),
    /// One of them is not the next one.
    Broken,
}

/// A number, if it is one of them.
pub(crate) fn only(yes: bool, number: usize) -> Run
    ensures { result ≡ spec.only yes number }
{
    if yes {
        Run::FromTo(number, number)
    } else {
        Run::Empty
    }
}

fn is_next(before: usize, number: usize) -> bool
    ensures { result ≡ nat_eq number (before + 1) }
{
    before < number && number - before == 1
}

/// Two rows of numbers, one behind the other.
#[tactic(auto, unfolding(crate::specs::Runs::join))]
pub(crate) fn join(a: Run, b: Run) -> Run
    ensures { result ≡ spec.join a b }
{
    match a {
        Run::Empty => b,
        Run::FromTo(first, last) => match b {
            Run::Empty => a,
            Run::FromTo(next, end) => {
                if is_next(last, next) {
                    Run::FromTo(first, end)
                } else {
                    Run::Broken
                }
            }
            Run::Broken => Run::Broken,
        },
        Run::Broken => Run::Broken,
    }
}

pub(crate) fn is_empty(run: Run) -> bool
    ensures { IsTrue result ↔ (run ≡ Empty) }
{
    match run {
        Run::Empty => true,
        Run::FromTo(_, _) => false,
        Run::Broken => false,
    }
}

/// Whether they are the numbers below `n`, each once and in order.
#[tactic(auto, using(crate::proofs::JoinedRuns::up_to_rules))]
pub(crate) fn is_up_to(run: Run, n: usize) -> bool
    ensures { IsTrue result ↔ (run ≡ run_of (range_with_len 0 n)) }
{
    match run {
        Run::Empty => n == 0,
        Run::FromTo(first, last) => (first == 0) & is_next(last, n),
        Run::Broken => false,
    }
}
