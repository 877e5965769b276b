//! The run: what is on top of the stack goes on until a loop begins a turn, or the function ends.

ghost use Rattle.std.specs.Prelude.{◌≡◌, ◌+◌, ◌*◌, ◌<◌, sum_by, []};
ghost use Rattle.away_trees.specs.Count.{nodes_of};
ghost use Rattle.plsql_meaning.specs.Outcomes.{closed_as, done};
ghost use Rattle.plsql_run.specs.Continues.{GoesOn, IfEnds, body_of, cost, load, outcome, resumed};
ghost use Rattle.plsql_run.specs.Settings.{meant};

use crate::enter::enter;
use crate::frames::{Frame, Signal, Stretch, Way};
use crate::loops::{begin_plain, begin_while, resume_count, verdict};
use crate::names::names_block;
use crate::setting::Setting;
use away_values::{Name, OpError, Value};
use sqlite_items::Items;
use std::alloc::Global;

/// The first of the statements that are left begins.
fn run_next<'a>(
    alloc: Global,
    setting: &Setting<'_>,
    stack: &mut Items<Frame<'a>>,
    env: &mut Items<Value>,
    place: Stretch<'a>,
) -> Result<Signal<'a>, OpError>
    ensures runs { let set = meant setting.now in GoesOn set stack.old
        (λ n. body_of set place.entry env.old n) stack.new env.new result }
    ensures ends { IfEnds result
        (load stack.new < load stack.old + (1 + 3 * sum_by nodes_of place.entry.list)) }
{
    let at = place.at;
    let layouts = place.layouts;
    match place.list.split_first() {
        None => Ok(Signal::Ends(Way::Normal)),
        Some((first, rest)) => {
            let layout = &layouts[0];
            let behind = Stretch {
                list: rest,
                layouts: &layouts[1..],
                at: at + layout.slots,
            };
            stack.push(Frame::Rest(behind))?;
            enter(alloc, setting, stack, env, first, layout, at)
        }
    }
}

/// How a block ends, by how its statements ended.
fn close<'a>(way: Way<'a>, own: &Option<Name>) -> Way<'a>
    ensures { outcome result ≡ closed_as own.now (outcome way.entry) }
{
    match way {
        Way::Normal => Way::Normal,
        Way::Exits(label) => {
            if names_block(label, own) {
                Way::Normal
            } else {
                Way::Exits(label)
            }
        }
        Way::Continues(label) => Way::Continues(label),
    }
}

/// A frame goes on, by how what stood on it ended.
fn resume<'a>(
    alloc: Global,
    setting: &Setting<'_>,
    stack: &mut Items<Frame<'a>>,
    env: &mut Items<Value>,
    frame: Frame<'a>,
    way: Way<'a>,
) -> Result<Signal<'a>, OpError>
    ensures runs { let set = meant setting.now
        in GoesOn set stack.old (λ n. resumed set frame.entry
        (done (outcome way.entry) env.old n)) stack.new env.new result }
    ensures ends { IfEnds result (load stack.new < load stack.old + cost frame.entry) }
{
    match frame {
        Frame::Rest(place) => match way {
            Way::Normal => run_next(alloc, setting, stack, env, place),
            Way::Exits(label) => Ok(Signal::Ends(Way::Exits(label))),
            Way::Continues(label) => Ok(Signal::Ends(Way::Continues(label))),
        },
        Frame::Block(label) => Ok(Signal::Ends(close(way, label))),
        Frame::Plain(label, body) => match verdict(way, label) {
            Some(way) => Ok(Signal::Ends(way)),
            None => begin_plain(stack, label, body),
        },
        Frame::While(label, test, body) => match verdict(way, label) {
            Some(way) => Ok(Signal::Ends(way)),
            None => begin_while(alloc, setting, stack, env, label, test, body),
        },
        Frame::Count(counter, counting) => match verdict(way, counting.label) {
            Some(way) => Ok(Signal::Ends(way)),
            None => resume_count(alloc, stack, env, counter, counting),
        },
    }
}

/// Goes on until a loop is about to begin a turn, or the function ends.
pub(crate) fn run_until_turn<'a>(
    alloc: Global,
    setting: &Setting<'_>,
    stack: &mut Items<Frame<'a>>,
    env: &mut Items<Value>,
    way: Way<'a>,
) -> Result<Signal<'a>, OpError>
    ensures runs { let set = meant setting.now in GoesOn set stack.old
        (λ n. done (outcome way.entry) env.old n) stack.new env.new result }
    ensures ends { IfEnds result (stack.new ≡ []) }
{
    let mut way = way;
    'frames: while let Some(frame) = stack.pop() {
        match resume(alloc, setting, stack, env, frame, way)? {
            Signal::Ends(next) => way = next,
            Signal::Returns(v) => return Ok(Signal::Returns(v)),
            Signal::Turn => return Ok(Signal::Turn),
        }
    }
    Ok(Signal::Ends(way))
}
