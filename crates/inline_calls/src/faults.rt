//! With which SQLSTATEs a run of a goto form may come to a fault.

ghost use Rattle.std.specs.Prelude.{◌≡◌, IfOk, OnOk, length};
ghost use Rattle.inline_calls.specs.Faults.{AreFaults, AreNoneOfReplaced, AreNoneWithoutFails, AreSomeOfRefused, StandOnce};
ghost use Rattle.inline_calls.specs.MarkedFaults as spec;

use crate::fails::reached;
use away_values::Class;
use block_forms::{Block, End, Goto};
use std::alloc::{AllocError, Global};
use std::cmp::Ordering;

/// The class with which the end fails.
fn class_of(end: &End) -> Option<Class>
    ensures { result ≡ spec.class_of end.now }
{
    match end {
        End::Fail(class) => Some(*class),
        End::Jump(_) | End::Branch(_, _, _) | End::Return(_) => None,
    }
}

/// How many of the classes come before the class, where it isn't one of them.
fn place_of(classes: &[Class], class: &Class) -> Option<usize>
    ensures { result ≡ spec.place class.now classes.now }
{
    for at in 0..classes.len() {
        match classes[at].code.cmp(&class.code) {
            Ordering::Less => {}
            Ordering::Equal => return None,
            Ordering::Greater => return Some(at),
        }
    }
    Some(classes.len())
}

/// Puts the class at its place among the classes, where it isn't one of them.
fn add_class(classes: &mut Vec<Class>, class: &Class) -> Result<(), AllocError>
    ensures { OnOk result (classes.new.items ≡ spec.with_class class.now classes.old.items) }
{
    if let Some(at) = place_of(classes, class) {
        classes.insert(at, *class)?;
    }
    Ok(())
}

/// The classes with which marked blocks fail.
fn marked_classes(alloc: Global, blocks: &[Block], marks: &[bool]) -> Result<Vec<Class>, AllocError>
    requires { length marks.now ≡ length blocks.now }
    ensures { IfOk result (λ classes. spec.AreMarkedBelow blocks.now marks.now
        (length blocks.now) classes.items) }
{
    let mut classes = Vec::new(alloc);
    for b in 0..blocks.len() {
        if marks[b] {
            if let Some(class) = class_of(&blocks[b].end) {
                add_class(&mut classes, &class)?;
            }
        }
    }
    Ok(classes)
}

/// The classes with which blocks fail that the entry reaches, in the order of their codes.
pub fn faults_of(alloc: Global, goto: &Goto) -> Result<Vec<Class>, AllocError>
    ensures { IfOk result (λ classes. AreFaults goto.now classes.items) }
{
    let marks = reached(alloc, goto)?;
    marked_classes(alloc, goto.blocks.as_slice(), &marks)
}

/// There are none exactly where the function may come to no fault of its own, as it is told of a query with calls.
pub fn faults_tell_inline()
    ensures once { StandOnce }
    ensures none { AreNoneWithoutFails }
    ensures refused { AreSomeOfRefused }
    ensures replaced { AreNoneOfReplaced }
{}
