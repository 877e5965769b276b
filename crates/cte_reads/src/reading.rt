//! Events of a query read one after the other. A place goes in and the place behind what was read comes out, or None where something else
//! stands there. No place gives no place.

ghost use Rattle.std.specs.Prelude.{◌≡◌, ◌∷◌, ◌↔◌, IsTrue};
ghost use Rattle.tree_events.specs.Events.{leaf, node};
ghost use Rattle.tree_events.specs.declared.events.Kind.TheVariants as kind;
ghost use Rattle.tree_events.specs.declared.events.TreeEvent.TheVariants as event;
ghost use Rattle.cte_reads.specs.Read.{Reads, event_of, kind_of};

use away_trees::Col;
use away_values::{Class, Ty, Word};
use tree_events::{Kind, TreeEvent};

/// A node that is wanted.
#[derive(Clone, Copy)]
pub enum Node {
    Of(Kind),
    /// A column: level, item and place.
    Column(usize, usize, usize),
    /// A number from 0 upwards.
    Number(usize),
    /// The number behind a number.
    Behind(usize),
    /// The parameter behind a number, with its type.
    Param(u32, Ty),
}

/// A event that is wanted.
#[derive(Clone, Copy)]
pub enum Wanted<'a> {
    Open(Node),
    Close,
    Enter,
    Leave,
    Code(Class),
    Text(&'a Word),
    Name(&'a str),
}

fn is_column(c: Col, level: usize, item: usize, column: usize) -> bool
    ensures { IsTrue result ↔ (c ≡ record { level = level; item = item; column = column }) }
{
    c.level as usize == level && c.item as usize == item && c.column as usize == column
}

fn is_node(here: Kind, want: Node) -> bool
    ensures { IsTrue result ↔ (here ≡ kind_of want) }
{
    match want {
        Node::Of(kind) => here == kind,
        Node::Column(level, item, column) => match here {
            Kind::Column(c) => is_column(c, level, item, column),
            _ => false,
        },
        Node::Number(n) => match here {
            Kind::Int(m) => m >= 0 && m as u64 == n as u64,
            _ => false,
        },
        Node::Behind(n) => match here {
            Kind::Int(m) => m > 0 && m as u64 - 1 == n as u64,
            _ => false,
        },
        Node::Param(i, ty) => match here {
            Kind::Param(j, other) => j as u64 == i as u64 + 1 && other == ty,
            _ => false,
        },
    }
}

/// Whether a text is the code points of a class.
fn is_code(text: &Word, class: Class) -> bool
    ensures { IsTrue result ↔ (text.now ≡ class.code) }
{
    let mut count = 0;
    for c in text.text().chars() {
        if count >= 5 || u32::from(c) != u32::from(class.code[count]) {
            return false;
        }
        count += 1;
    }
    count == 5
}

fn is_event(here: &TreeEvent, want: Wanted<'_>) -> bool
    ensures { IsTrue result ↔ (here.now ≡ event_of want.entry) }
{
    match want {
        Wanted::Open(node) => match here {
            TreeEvent::Open(kind) => is_node(*kind, node),
            _ => false,
        },
        Wanted::Close => match here {
            TreeEvent::Close => true,
            _ => false,
        },
        Wanted::Enter => match here {
            TreeEvent::Enter => true,
            _ => false,
        },
        Wanted::Leave => match here {
            TreeEvent::Leave => true,
            _ => false,
        },
        Wanted::Code(class) => match here {
            TreeEvent::Text(text) => is_code(text, class),
            _ => false,
        },
        Wanted::Text(text) => match here {
            TreeEvent::Text(other) => other.text() == text.text(),
            _ => false,
        },
        Wanted::Name(name) => match here {
            TreeEvent::Name(other) => other.text() == name,
            _ => false,
        },
    }
}

/// One event.
pub fn event(events: &[TreeEvent], at: Option<usize>, want: Wanted<'_>) -> Option<usize>
    ensures { Reads (λ rest. event_of want.entry ∷ rest) events.now at result }
{
    match at {
        None => None,
        Some(at) => {
            if at >= events.len() {
                return None;
            }
            if !is_event(&events[at], want) {
                return None;
            }
            Some(at + 1)
        }
    }
}

/// A node's first event.
pub fn open(events: &[TreeEvent], at: Option<usize>, kind: Kind) -> Option<usize>
    ensures { Reads (λ rest. event.Open kind ∷ rest) events.now at result }
{
    event(events, at, Wanted::Open(Node::Of(kind)))
}

pub fn close(events: &[TreeEvent], at: Option<usize>) -> Option<usize>
    ensures { Reads (λ rest. event.Close ∷ rest) events.now at result }
{
    event(events, at, Wanted::Close)
}

pub fn enter(events: &[TreeEvent], at: Option<usize>) -> Option<usize>
    ensures { Reads (λ rest. event.Enter ∷ rest) events.now at result }
{
    event(events, at, Wanted::Enter)
}

pub fn leave(events: &[TreeEvent], at: Option<usize>) -> Option<usize>
    ensures { Reads (λ rest. event.Leave ∷ rest) events.now at result }
{
    event(events, at, Wanted::Leave)
}

/// The name that a text is.
pub fn name(events: &[TreeEvent], at: Option<usize>, name: &str) -> Option<usize>
    ensures { Reads (λ rest. event.Name name.now ∷ rest) events.now at result }
{
    event(events, at, Wanted::Name(name))
}

/// A node without parts.
pub fn empty(events: &[TreeEvent], at: Option<usize>, kind: Kind) -> Option<usize>
    ensures { Reads (leaf kind) events.now at result }
{
    close(events, open(events, at, kind))
}

/// A wanted node without parts.
pub fn empty_node(events: &[TreeEvent], at: Option<usize>, want: Node) -> Option<usize>
    ensures { Reads (leaf (kind_of want)) events.now at result }
{
    close(events, event(events, at, Wanted::Open(want)))
}
