//! Forms of four functions: the written ones are theirs, and no form is that differs in one number.

use crate::edits::Edit;
use crate::forms::{BlockOf, EndOf, goto_of};
use crate::functions::{COLLATZ, SIGN_OF, function};
use away_types::CheckedFunction;
use goto_check::check_lowered;
use std::process::Abort;

const ONLY_ROW: &str =
    "DECLARE r bigint NOT NULL := 0; BEGIN SELECT a INTO STRICT r; RETURN r; END";

const PAIR: &str = "DECLARE b bigint := 0; BEGIN SELECT b, b INTO a, b; RETURN a; END";

/// The end of the function, the first block of each node, and the blocks.
type FormOf = (u32, &'static [u32], &'static [BlockOf<'static>]);

static SIGN_OF_FORM: FormOf = (
    4,
    &[1, 1, 1, 1, 2, 3],
    &[
        (false, None, EndOf::Jump(1)),
        (false, None, EndOf::Branch(0, &[0], 2, 3)),
        (false, None, EndOf::Return(1, &[])),
        (false, None, EndOf::Return(2, &[])),
        (false, None, EndOf::NoReturn),
    ],
);

/// The same with its two returns the other way round. Its end of the function is its last block, so that each block is looked for by itself.
static RENUMBERED: FormOf = (
    4,
    &[1, 1, 1, 1, 3, 2],
    &[
        (false, None, EndOf::Jump(1)),
        (false, None, EndOf::Branch(0, &[0], 3, 2)),
        (false, None, EndOf::Return(2, &[])),
        (false, None, EndOf::Return(1, &[])),
        (false, None, EndOf::NoReturn),
    ],
);

/// Its blocks are in the order of the text, so that one walk tells that each is once.
static COLLATZ_FORM: FormOf = (
    1,
    &[2, 2, 2, 3, 4, 4, 5, 6, 6, 7, 8],
    &[
        (false, None, EndOf::Jump(2)),
        (false, None, EndOf::NoReturn),
        (false, Some((1, 0, &[])), EndOf::Jump(3)),
        (true, None, EndOf::Branch(1, &[0], 4, 8)),
        (false, None, EndOf::Branch(2, &[0], 5, 6)),
        (false, Some((0, 3, &[0])), EndOf::Jump(7)),
        (false, Some((0, 4, &[0])), EndOf::Jump(7)),
        (false, Some((1, 5, &[1])), EndOf::Jump(3)),
        (false, None, EndOf::Return(6, &[1])),
    ],
);

/// The same where the variable has a slot that the function hasn't.
static OTHER_SLOT: FormOf = (
    1,
    &[2, 2, 2, 3, 4, 4, 5, 6, 6, 7, 8],
    &[
        (false, None, EndOf::Jump(2)),
        (false, None, EndOf::NoReturn),
        (false, Some((2, 0, &[])), EndOf::Jump(3)),
        (true, None, EndOf::Branch(1, &[0], 4, 8)),
        (false, None, EndOf::Branch(2, &[0], 5, 6)),
        (false, Some((0, 3, &[0])), EndOf::Jump(7)),
        (false, Some((0, 4, &[0])), EndOf::Jump(7)),
        (false, Some((2, 5, &[2])), EndOf::Jump(3)),
        (false, None, EndOf::Return(6, &[2])),
    ],
);

static ONLY_ROW_FORM: FormOf = (
    1,
    &[2, 2, 2, 5, 9, 13],
    &[
        (false, None, EndOf::Jump(2)),
        (false, None, EndOf::NoReturn),
        (false, Some((1, 0, &[])), EndOf::Jump(3)),
        (false, None, EndOf::Branch(8, &[1], 4, 5)),
        (false, None, EndOf::Fail(*b"22004")),
        (false, None, EndOf::Branch(1, &[0], 6, 7)),
        (false, None, EndOf::Fail(*b"P0002")),
        (false, None, EndOf::Branch(2, &[0], 8, 9)),
        (false, None, EndOf::Fail(*b"P0003")),
        (false, Some((2, 3, &[0])), EndOf::Jump(10)),
        (false, Some((1, 19, &[2])), EndOf::Jump(11)),
        (false, None, EndOf::Branch(8, &[1], 12, 13)),
        (false, None, EndOf::Fail(*b"22004")),
        (false, None, EndOf::Return(4, &[1])),
    ],
);

static PAIR_FORM: FormOf = (
    1,
    &[2, 2, 2, 3, 3, 4, 7],
    &[
        (false, None, EndOf::Jump(2)),
        (false, None, EndOf::NoReturn),
        (false, Some((1, 0, &[])), EndOf::Jump(3)),
        (false, Some((2, 1, &[1])), EndOf::Jump(4)),
        (false, Some((3, 2, &[1])), EndOf::Jump(5)),
        (false, Some((0, 18, &[2])), EndOf::Jump(6)),
        (false, Some((1, 18, &[3])), EndOf::Jump(7)),
        (false, None, EndOf::Return(3, &[0])),
    ],
);

/// Whether the form with the edit is that of the function.
fn accepts(
    rt: &(impl Abort + AllocGlobal),
    f: &CheckedFunction,
    form: &FormOf,
    edit: &mut Edit,
) -> bool {
    let (finish, nodes, blocks) = form;
    check_lowered(f, &goto_of(rt, *finish, nodes, blocks, edit))
}

#[test]
fn numbers_of_blocks_and_slots(rt: HostRuntime) {
    let (_, nodes, blocks) = SIGN_OF_FORM;
    let ends_with_a_return: FormOf = (3, nodes, blocks);
    for (params, body, form, want) in [
        ("a bigint", SIGN_OF, &RENUMBERED, true),
        ("a bigint", SIGN_OF, &ends_with_a_return, false),
        ("n bigint", COLLATZ, &OTHER_SLOT, false),
    ] {
        let f = function(&rt, params, "", body);
        assert!(rt; accepts(&rt, f.get(), form, &mut Edit::none()) == want);
    }
}

/// Each number is one of the form's, and so are whether a block is a head and which class it fails with.
#[test]
fn each_number_counts(rt: HostRuntime) {
    for (params, body, form) in [
        ("a bigint", SIGN_OF, &SIGN_OF_FORM),
        ("n bigint", COLLATZ, &COLLATZ_FORM),
        ("a bigint", ONLY_ROW, &ONLY_ROW_FORM),
        ("a bigint", PAIR, &PAIR_FORM),
    ] {
        let f = function(&rt, params, "", body);
        let mut edit = Edit::none();
        assert!(rt; accepts(&rt, f.get(), form, &mut edit), "{body}");
        for place in 0..edit.numbers() {
            let mut other = Edit::raised(place);
            assert!(rt;
                !accepts(&rt, f.get(), form, &mut other),
                "{body}: number {place}"
            );
        }
    }
}
