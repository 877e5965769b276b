//! Single events, and nodes that hold no others.

ghost use Rattle.std.specs.Prelude.{◌≡◌, ◌∷◌};
ghost use Rattle.tree_events.specs.declared.events.Kind.TheVariants as kind;
ghost use Rattle.tree_events.specs.declared.events.TreeEvent.TheVariants as event;
ghost use Rattle.tree_events.specs.Events as spec;
ghost use Rattle.tree_events.specs.Events.{Adds};

use crate::events::{Kind, TreeEvent};
use away_values::{Name, NoMemory, Word};
use sqlite_items::Items;
use std::alloc::Global;

pub(crate) fn push(events: &mut Items<TreeEvent>, event: TreeEvent) -> Result<(), NoMemory>
    ensures { Adds (λ rest. event ∷ rest) events.old result events.new }
{
    events.push(event)?;
    Ok(())
}

pub(crate) fn open(events: &mut Items<TreeEvent>, kind: Kind) -> Result<(), NoMemory>
    ensures { Adds (λ rest. event.Open kind ∷ rest) events.old result events.new }
{
    push(events, TreeEvent::Open(kind))
}

pub(crate) fn close(events: &mut Items<TreeEvent>) -> Result<(), NoMemory>
    ensures { Adds (λ rest. event.Close ∷ rest) events.old result events.new }
{
    push(events, TreeEvent::Close)
}

/// A node without parts.
pub(crate) fn leaf(events: &mut Items<TreeEvent>, kind: Kind) -> Result<(), NoMemory>
    ensures { Adds (spec.leaf kind) events.old result events.new }
{
    open(events, kind)?;
    close(events)
}

pub(crate) fn integer(n: i64) -> Kind
    ensures { result ≡ kind.Int n }
{
    Kind::Int(n)
}

pub(crate) fn name(
    alloc: Global,
    events: &mut Items<TreeEvent>,
    name: &Name,
) -> Result<(), NoMemory>
    ensures { Adds (λ rest. event.Name name.now ∷ rest) events.old result events.new }
{
    push(events, TreeEvent::Name(name.copy(alloc)?))
}

pub(crate) fn text(
    alloc: Global,
    events: &mut Items<TreeEvent>,
    text: &Word,
) -> Result<(), NoMemory>
    ensures { Adds (spec.text_node text.now) events.old result events.new }
{
    open(events, Kind::Str)?;
    push(events, TreeEvent::Text(text.copy(alloc)?))?;
    close(events)
}

pub(crate) fn named(alloc: Global, events: &mut Items<TreeEvent>, of: &Name) -> Result<(), NoMemory>
    ensures { Adds (spec.named_node of.now) events.old result events.new }
{
    open(events, Kind::Named)?;
    name(alloc, events, of)?;
    close(events)
}

pub(crate) fn qualified(
    alloc: Global,
    events: &mut Items<TreeEvent>,
    alias: &Name,
    column: &Name,
) -> Result<(), NoMemory>
    ensures { Adds (spec.qualified_node alias.now column.now) events.old result events.new }
{
    open(events, Kind::Dotted)?;
    name(alloc, events, alias)?;
    name(alloc, events, column)?;
    close(events)
}

/// A table, by the digits of its place.
pub(crate) fn table(
    alloc: Global,
    events: &mut Items<TreeEvent>,
    columns: &[Name],
) -> Result<(), NoMemory>
    ensures { Adds (spec.table_node columns.now) events.old result events.new }
{
    open(events, Kind::Table)?;
    if !columns.is_empty() {
        name(alloc, events, &columns[0])?;
    }
    close(events)
}
