//! Each block belongs to one node of the function, and each node tells a block: forms in which two share one, or in which nodes are missing or left
//! over, are refused.

use crate::edits::Edit;
use crate::forms::{BlockOf, EndOf, goto_of};
use crate::functions::{checked, no_tables};
use away_types::CheckedSchema;
use goto_check::check_lowered;
use std::process::Abort;

/// Where a form begins, and the end of the function behind it.
const FIRST: [BlockOf<'static>; 2] = [
    (false, None, EndOf::Jump(2)),
    (false, None, EndOf::NoReturn),
];

/// Whether the form with these blocks, of which block 1 is the end of the function, is that of the function of `a` with this body.
fn accepts(
    rt: &(impl Abort + AllocGlobal),
    schema: &CheckedSchema,
    body: &str,
    nodes: &[u32],
    blocks: &[BlockOf],
) -> bool {
    let text = format!(in rt.alloc();
        "CREATE FUNCTION f(a bigint) RETURNS bigint LANGUAGE plpgsql AS $$ {body} $$;"
    ).expect(rt, "memory");
    let function = checked(rt, schema, text.as_str());
    let form = goto_of(rt, 1, nodes, blocks, &mut Edit::none());
    check_lowered(function.get(), &form)
}

#[test]
fn a_block_belongs_to_one_node(rt: HostRuntime) {
    let schema = no_tables(&rt);
    let [entry, finish] = FIRST;
    let again = |to| (true, None, EndOf::Jump(to));
    let null = |to| (false, None, EndOf::Jump(to));
    let test = |yes, no| (false, None, EndOf::Branch(0, &[0], yes, no));
    let zero = (false, None, EndOf::Return(1, &[]));
    let loops = "BEGIN LOOP LOOP END LOOP; END LOOP; END;";
    let nulls = "BEGIN IF a > 0 THEN NULL; ELSE NULL; END IF; RETURN 0; END;";
    for (body, nodes, blocks, want) in [
        (
            loops,
            [2, 2, 2, 3].as_slice(),
            [entry, finish, again(3), again(3)].as_slice(),
            true,
        ),
        // one head for both loops
        (loops, &[2, 2, 2, 2], &[entry, finish, again(2)], false),
        // a block that is no node's, behind the others and between them
        (
            loops,
            &[2, 2, 2, 3],
            &[entry, finish, again(3), again(3), null(2)],
            false,
        ),
        (
            loops,
            &[2, 2, 2, 4],
            &[entry, finish, again(4), null(2), again(4)],
            false,
        ),
        // a block too few
        (loops, &[2, 2, 2, 3], &[entry, finish, again(3)], false),
        (
            nulls,
            &[2, 2, 2, 2, 3, 4, 4, 5],
            &[entry, finish, test(3, 4), null(5), null(5), zero],
            true,
        ),
        // one block for both statements NULL
        (
            nulls,
            &[2, 2, 2, 2, 3, 3, 3, 4],
            &[entry, finish, test(3, 3), null(4), zero],
            false,
        ),
    ] {
        assert!(rt;
            accepts(&rt, &schema, body, nodes, blocks) == want,
            "{body}"
        );
    }
}

#[test]
fn nodes_are_as_many_as_the_function_has(rt: HostRuntime) {
    let schema = no_tables(&rt);
    let [entry, finish] = FIRST;
    let blocks = [entry, finish, (false, None, EndOf::Return(0, &[]))];
    for (nodes, want) in [
        ([2, 2, 2].as_slice(), true),
        (&[2, 2], false),
        (&[2, 2, 2, 2], false),
        (&[2, 2, 2, 9], false),
    ] {
        let accepted = accepts(&rt, &schema, "BEGIN RETURN 1; END;", nodes, &blocks);
        assert!(rt; accepted == want);
    }
}
