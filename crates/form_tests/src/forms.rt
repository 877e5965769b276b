//! The forms of three small functions.

use crate::edits::Edit;
use away_values::{Class, Ty};
use block_forms::{Block, End, Goto, Phi, Ssa, SsaBlock, Term};
use call_forms::{Anf, AnfBlock, Call, CallEnd, Tail};
use sqlite_items::Items;
use std::process::Abort;

#[derive(Clone, Copy)]
pub enum Example {
    /// `IF a > 0 THEN RETURN 1; END IF; RETURN 2;`, where no block leads to the last.
    Sign,
    /// The same with a second parameter, which nothing reads.
    SignOfTwo,
    /// `total := n + n; WHILE total < n LOOP total := total + n; END LOOP; RETURN total;`
    Loop,
}

impl Example {
    pub fn text(self) -> &'static str {
        match self {
            Example::Sign => {
                "CREATE FUNCTION sign_of(a bigint) RETURNS bigint LANGUAGE plpgsql AS $$ BEGIN IF a > 0 THEN RETURN 1; END IF; RETURN 2; END; $$;"
            }
            Example::SignOfTwo => {
                "CREATE FUNCTION sign_of(a bigint, b bigint) RETURNS bigint LANGUAGE plpgsql AS $$ BEGIN IF a > 0 THEN RETURN 1; END IF; RETURN 2; END; $$;"
            }
            Example::Loop => {
                "CREATE FUNCTION doubled(n bigint) RETURNS bigint LANGUAGE plpgsql AS $$ DECLARE total bigint; BEGIN total := n + n; \
                WHILE total < n LOOP total := total + n; END LOOP; RETURN total; END; $$;"
            }
        }
    }
}

/// An end over slots or names.
#[derive(Clone, Copy)]
pub enum EndOf<'a> {
    Jump(u32),
    Branch(u32, &'a [u32], u32, u32),
    Return(u32, &'a [u32]),
    Fail([u8; 5]),
    NoReturn,
}

/// What is set, to which expression of which slots or names.
pub type SetOf<'a> = Option<(u32, u32, &'a [u32])>;

/// Whether a block is a head, its assignment and its end.
pub type BlockOf<'a> = (bool, SetOf<'a>, EndOf<'a>);

fn push<T: Drop>(rt: &(impl Abort + AllocGlobal), edit: &mut Edit, list: &mut Items<T>, x: T) {
    if edit.keeps() && list.push(x).is_err() {
        rt.abort();
    }
}

fn numbers(rt: &(impl Abort + AllocGlobal), edit: &mut Edit, list: &[u32]) -> Items<u32> {
    let mut out = Items::new(rt.alloc());
    for n in list {
        let number = edit.of(*n);
        push(rt, edit, &mut out, number);
    }
    out
}

fn pairs(
    rt: &(impl Abort + AllocGlobal),
    edit: &mut Edit,
    list: &[(u32, u32)],
) -> Items<(u32, u32)> {
    let mut out = Items::new(rt.alloc());
    for (a, b) in list {
        let pair = (edit.of(*a), edit.of(*b));
        if edit.doubles() && out.push(pair).is_err() {
            rt.abort();
        }
        push(rt, edit, &mut out, pair);
    }
    out
}

fn term(rt: &(impl Abort + AllocGlobal), edit: &mut Edit, expr: u32, names: &[u32]) -> Term {
    Term {
        expr: edit.of(expr),
        names: numbers(rt, edit, names),
    }
}

fn end(rt: &(impl Abort + AllocGlobal), edit: &mut Edit, end: EndOf) -> End {
    match end {
        EndOf::Jump(c) => End::Jump(edit.of(c)),
        EndOf::Branch(expr, names, c, d) => {
            let test = term(rt, edit, expr, names);
            End::Branch(test, edit.of(c), edit.of(d))
        }
        EndOf::Return(expr, names) => End::Return(term(rt, edit, expr, names)),
        EndOf::Fail(code) => fail(edit, code),
        EndOf::NoReturn => fail(edit, *b"2F005"),
    }
}

/// The end that fails with the class, or with another one.
fn fail(edit: &mut Edit, code: [u8; 5]) -> End {
    let code = if edit.of(5) == 5 { code } else { *b"2F002" };
    End::Fail(Class { code })
}

fn set(rt: &(impl Abort + AllocGlobal), edit: &mut Edit, set: SetOf) -> Option<(u32, Term)> {
    match set {
        None => None,
        Some((to, expr, names)) => {
            let set = (edit.of(to), term(rt, edit, expr, names));
            if edit.keeps() { Some(set) } else { None }
        }
    }
}

pub fn block(
    rt: &(impl Abort + AllocGlobal),
    edit: &mut Edit,
    head: bool,
    to: SetOf,
    ends: EndOf,
) -> Block {
    let kept = edit.of(u32::from(head)) == u32::from(head);
    Block {
        head: kept == head,
        set: set(rt, edit, to),
        end: end(rt, edit, ends),
    }
}

/// A block, where a φ has a name and its operands.
pub fn ssa_block(
    rt: &(impl Abort + AllocGlobal),
    edit: &mut Edit,
    map: &[(u32, u32)],
    phi: Option<(u32, &[(u32, u32)])>,
    to: SetOf,
    ends: EndOf,
) -> SsaBlock {
    let map = pairs(rt, edit, map);
    let mut phis = Items::new(rt.alloc());
    if let Some((name, operands)) = phi {
        let phi = Phi {
            name: edit.of(name),
            operands: pairs(rt, edit, operands),
        };
        push(rt, edit, &mut phis, phi);
    }
    SsaBlock {
        map,
        phis,
        set: set(rt, edit, to),
        end: end(rt, edit, ends),
    }
}

/// A goto form whose entry is its first block.
pub fn goto_of(
    rt: &(impl Abort + AllocGlobal),
    finish: u32,
    nodes: &[u32],
    blocks: &[BlockOf],
    edit: &mut Edit,
) -> Goto {
    let mut list = Items::new(rt.alloc());
    for (head, to, ends) in blocks {
        let next = block(rt, edit, *head, *to, *ends);
        push(rt, edit, &mut list, next);
    }
    Goto {
        entry: edit.of(0),
        finish: edit.of(finish),
        nodes: numbers(rt, edit, nodes),
        blocks: list,
    }
}

pub fn goto(rt: &(impl Abort + AllocGlobal), example: Example, edit: &mut Edit) -> Goto {
    let blocks: &[BlockOf] = match example {
        Example::Sign | Example::SignOfTwo => &[
            (false, None, EndOf::Jump(1)),
            (false, None, EndOf::Branch(0, &[0], 2, 3)),
            (false, None, EndOf::Return(1, &[])),
            (false, None, EndOf::Return(2, &[])),
            (false, None, EndOf::NoReturn),
        ],
        Example::Loop => &[
            (false, None, EndOf::Jump(1)),
            (false, Some((1, 0, &[0, 0])), EndOf::Jump(2)),
            (true, None, EndOf::Branch(1, &[1, 0], 3, 4)),
            (false, Some((1, 0, &[1, 0])), EndOf::Jump(2)),
            (false, None, EndOf::Return(2, &[1])),
            (false, None, EndOf::NoReturn),
        ],
    };
    goto_of(rt, 5, &[1, 1, 2], blocks, edit)
}

/// The map, a φ with its operands, the assignment and the end of a block.
type SsaParts<'a> = (
    &'a [(u32, u32)],
    Option<(u32, &'a [(u32, u32)])>,
    SetOf<'a>,
    EndOf<'a>,
);

pub fn ssa(rt: &(impl Abort + AllocGlobal), example: Example, edit: &mut Edit) -> Ssa {
    let names: &[u32] = match example {
        Example::Sign => &[0],
        Example::SignOfTwo => &[0, 1],
        Example::Loop => &[0, 1, 1, 1],
    };
    let blocks: &[SsaParts] = match example {
        Example::Sign | Example::SignOfTwo => &[
            (&[(0, 0)], None, None, EndOf::Jump(1)),
            (&[(0, 0)], None, None, EndOf::Branch(0, &[0], 2, 3)),
            (&[], None, None, EndOf::Return(1, &[])),
            (&[], None, None, EndOf::Return(2, &[])),
            (&[], None, None, EndOf::NoReturn),
        ],
        Example::Loop => &[
            (&[(0, 0)], None, None, EndOf::Jump(1)),
            (&[(0, 0)], None, Some((1, 0, &[0, 0])), EndOf::Jump(2)),
            (
                &[(0, 0), (1, 2)],
                Some((2, &[(1, 1), (3, 3)])),
                None,
                EndOf::Branch(1, &[2, 0], 3, 4),
            ),
            (
                &[(0, 0), (1, 2)],
                None,
                Some((3, 0, &[2, 0])),
                EndOf::Jump(2),
            ),
            (&[(1, 2)], None, None, EndOf::Return(2, &[2])),
            (&[], None, None, EndOf::NoReturn),
        ],
    };
    let names = numbers(rt, edit, names);
    let mut list = Items::new(rt.alloc());
    for (map, phi, to, ends) in blocks {
        let next = ssa_block(rt, edit, map, *phi, *to, *ends);
        push(rt, edit, &mut list, next);
    }
    Ssa {
        names,
        blocks: list,
    }
}

/// A call and an end, with names.
type CallOf<'a> = (u32, &'a [u32]);

#[derive(Clone, Copy)]
enum CallEndOf<'a> {
    Go(CallOf<'a>),
    Pick(u32, &'a [u32], CallOf<'a>, CallOf<'a>),
    Return(u32, &'a [u32]),
    NoReturn,
}

fn call(rt: &(impl Abort + AllocGlobal), edit: &mut Edit, (target, args): CallOf) -> Call {
    Call {
        target: edit.of(target),
        args: numbers(rt, edit, args),
    }
}

fn call_end(rt: &(impl Abort + AllocGlobal), edit: &mut Edit, ends: CallEndOf) -> CallEnd {
    match ends {
        CallEndOf::Go(to) => CallEnd::Go(call(rt, edit, to)),
        CallEndOf::Pick(expr, names, yes, no) => {
            let test = term(rt, edit, expr, names);
            let yes = call(rt, edit, yes);
            CallEnd::Pick(test, yes, call(rt, edit, no))
        }
        CallEndOf::Return(expr, names) => CallEnd::Return(term(rt, edit, expr, names)),
        CallEndOf::NoReturn => match end(rt, edit, EndOf::NoReturn) {
            End::Fail(class) => CallEnd::Fail(class),
            _ => rt.abort(),
        },
    }
}

/// The parameters, the assignment and the end of a block.
type AnfParts<'a> = (&'a [u32], SetOf<'a>, CallEndOf<'a>);

pub fn anf(rt: &(impl Abort + AllocGlobal), example: Example, edit: &mut Edit) -> Anf {
    let blocks: &[AnfParts] = match example {
        Example::Sign | Example::SignOfTwo => &[
            (&[0], None, CallEndOf::Go((1, &[0]))),
            (&[0], None, CallEndOf::Pick(0, &[0], (2, &[]), (3, &[]))),
            (&[], None, CallEndOf::Return(1, &[])),
            (&[], None, CallEndOf::Return(2, &[])),
            (&[], None, CallEndOf::NoReturn),
        ],
        Example::Loop => &[
            (&[0], None, CallEndOf::Go((1, &[0]))),
            (&[0], Some((1, 0, &[0, 0])), CallEndOf::Go((2, &[0, 1]))),
            (
                &[0, 2],
                None,
                CallEndOf::Pick(1, &[2, 0], (3, &[0, 2]), (4, &[2])),
            ),
            (&[0, 2], Some((3, 0, &[2, 0])), CallEndOf::Go((2, &[0, 3]))),
            (&[2], None, CallEndOf::Return(2, &[2])),
            (&[], None, CallEndOf::NoReturn),
        ],
    };
    let mut list = Items::new(rt.alloc());
    for (params, to, ends) in blocks {
        let block = AnfBlock {
            params: numbers(rt, edit, params),
            set: set(rt, edit, *to),
            end: call_end(rt, edit, *ends),
        };
        push(rt, edit, &mut list, block);
    }
    Anf { blocks: list }
}

/// A tail form with these labels and places, over columns of one type.
pub fn tail(
    rt: &(impl Abort + AllocGlobal),
    labels: &[u32],
    columns: &[Ty],
    places: &[&[u32]],
    edit: &mut Edit,
) -> Tail {
    let labels = numbers(rt, edit, labels);
    let mut types = Items::new(rt.alloc());
    for column in columns {
        push(rt, edit, &mut types, *column);
    }
    let mut of_labels = Items::new(rt.alloc());
    for of_label in places {
        let place = numbers(rt, edit, of_label);
        push(rt, edit, &mut of_labels, place);
    }
    Tail {
        labels,
        columns: types,
        places: of_labels,
    }
}

/// The tail form of an example: each block of the first is a label but the last, and of the second the entry and the loop.
pub fn tail_of(rt: &(impl Abort + AllocGlobal), example: Example, edit: &mut Edit) -> Tail {
    match example {
        Example::Sign | Example::SignOfTwo => tail(
            rt,
            &[3, 2, 1, 0],
            &[Ty::Bigint],
            &[&[], &[], &[0], &[0]],
            edit,
        ),
        Example::Loop => tail(
            rt,
            &[0, 2],
            &[Ty::Bigint, Ty::Bigint],
            &[&[0], &[0, 1]],
            edit,
        ),
    }
}
