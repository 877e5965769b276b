//! The SSA forms of three functions are accepted, and with a number changed, a part left out or a pair twice they are refused.

use crate::edits::Edit;
use crate::forms::{Example, goto, ssa};
use crate::functions::{checked, no_tables};
use away_types::CheckedFunction;
use block_forms::{GotoForm, SsaForm, Stage};
use ssa_check::{NameStage, check_named};
use std::process::Abort;

/// Whether the form with the edit is that of the example.
fn accepts(
    rt: &(impl Abort + AllocGlobal),
    function: &CheckedFunction,
    example: Example,
    edit: &mut Edit,
) -> bool {
    let goto = goto(rt, example, &mut Edit::none());
    let ssa = ssa(rt, example, edit);
    check_named(function, &goto, &ssa)
}

fn refuses_changed_numbers(
    rt: &(impl Abort + AllocGlobal),
    function: &CheckedFunction,
    example: Example,
    numbers: usize,
) {
    for place in 0..numbers {
        for to in [0, 1, 2, 3, 4, 9] {
            let mut edit = Edit::number(place, to);
            let accepted = accepts(rt, function, example, &mut edit);
            assert!(rt;
                accepted == edit.changes_nothing(),
                "number {place} is {to}"
            );
        }
    }
}

fn refuses_missing_parts(
    rt: &(impl Abort + AllocGlobal),
    function: &CheckedFunction,
    example: Example,
    parts: usize,
) {
    for place in 0..parts {
        let accepted = accepts(rt, function, example, &mut Edit::without(place));
        assert!(rt; !accepted, "without part {place}");
    }
}

/// A slot has one name in a map, and a φ one operand for each block.
fn refuses_doubled_pairs(
    rt: &(impl Abort + AllocGlobal),
    function: &CheckedFunction,
    example: Example,
    parts: usize,
) {
    for place in 0..parts {
        let mut edit = Edit::twice(place);
        let accepted = accepts(rt, function, example, &mut edit);
        assert!(rt; accepted == edit.changes_nothing(), "part {place} twice");
    }
}

/// Of two parameters, one of which nothing reads, each has the name of its own number.
#[test]
fn each_part_of_an_ssa_form_counts(rt: HostRuntime) {
    let schema = no_tables(&rt);
    for example in [Example::Sign, Example::SignOfTwo, Example::Loop] {
        let function = checked(&rt, &schema, example.text());
        let mut edit = Edit::none();
        assert!(rt;
            accepts(&rt, function.get(), example, &mut edit),
            "the form itself"
        );
        refuses_changed_numbers(&rt, function.get(), example, edit.numbers());
        refuses_missing_parts(&rt, function.get(), example, edit.parts());
        refuses_doubled_pairs(&rt, function.get(), example, edit.parts());
    }
}

/// Functions whose variables and parameters are those of the loop in number, and others.
const OTHERS: [(&str, bool); 5] = [
    (
        "CREATE FUNCTION f(a bigint) RETURNS bigint LANGUAGE plpgsql AS $$ DECLARE b bigint; BEGIN END; $$;",
        true,
    ),
    (
        "CREATE FUNCTION f(a bigint) RETURNS bigint LANGUAGE plpgsql AS $$ DECLARE b bigint; c bigint; BEGIN END; $$;",
        true,
    ),
    (
        "CREATE FUNCTION f(a bigint) RETURNS bigint LANGUAGE plpgsql AS $$ BEGIN END; $$;",
        false,
    ),
    (
        "CREATE FUNCTION f() RETURNS bigint LANGUAGE plpgsql AS $$ DECLARE a bigint; b bigint; BEGIN END; $$;",
        false,
    ),
    (
        "CREATE FUNCTION f(a bigint, b bigint) RETURNS bigint LANGUAGE plpgsql AS $$ BEGIN END; $$;",
        false,
    ),
];

#[test]
fn slots_and_parameters_count(rt: HostRuntime) {
    let schema = no_tables(&rt);
    for (text, want) in OTHERS {
        let function = checked(&rt, &schema, text);
        let accepted = accepts(&rt, function.get(), Example::Loop, &mut Edit::none());
        assert!(rt; accepted == want, "{text}");
    }
}

/// Whether the goto form with the edit is taken for the one that the stage begins with.
fn is_same(
    rt: &(impl Abort + AllocGlobal),
    function: &CheckedFunction,
    example: Example,
    edit: &mut Edit,
) -> bool {
    let form = goto(rt, example, &mut Edit::none());
    let other = goto(rt, example, edit);
    let named = ssa(rt, example, &mut Edit::none());
    let stage = NameStage {
        function,
        goto: &form,
    };
    stage
        .check(
            rt.alloc(),
            &GotoForm { goto: &other },
            &SsaForm { ssa: &named },
        )
        .expect(rt, "memory")
}

#[test]
fn each_part_of_a_goto_form_is_compared(rt: HostRuntime) {
    let schema = no_tables(&rt);
    let example = Example::Loop;
    let function = checked(&rt, &schema, example.text());
    let mut edit = Edit::none();
    assert!(rt;
        is_same(&rt, function.get(), example, &mut edit),
        "the form itself"
    );
    for place in 0..edit.numbers() {
        let mut other = Edit::number(place, 9);
        assert!(rt;
            !is_same(&rt, function.get(), example, &mut other),
            "number {place}"
        );
    }
    for place in 0..edit.parts() {
        let mut other = Edit::without(place);
        assert!(rt;
            !is_same(&rt, function.get(), example, &mut other),
            "without part {place}"
        );
    }
}
