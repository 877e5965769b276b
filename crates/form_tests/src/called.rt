//! The forms of two functions are accepted, and with a number changed or a part left out they are refused.

use crate::edits::Edit;
use crate::forms::{Example, anf, goto, ssa, tail, tail_of};
use crate::functions::{checked, no_tables};
use away_types::CheckedFunction;
use away_values::Ty;
use block_forms::Stage;
use call_check::{MergeStage, check_called, check_columned, check_merged};
use call_forms::{Anf, AnfForm, Tail, TailForm};
use std::process::Abort;

fn called(rt: &(impl Abort + AllocGlobal), example: Example, anf: &Anf) -> bool {
    let goto = goto(rt, example, &mut Edit::none());
    let ssa = ssa(rt, example, &mut Edit::none());
    check_called(rt.alloc(), &goto, &ssa, anf).expect(rt, "memory")
}

fn tailed(
    rt: &(impl Abort + AllocGlobal),
    function: &CheckedFunction,
    example: Example,
    tail: &Tail,
) -> bool {
    let goto = goto(rt, example, &mut Edit::none());
    let ssa = ssa(rt, example, &mut Edit::none());
    let anf = anf(rt, example, &mut Edit::none());
    let merged = check_merged(rt.alloc(), &goto, &anf, tail).expect(rt, "memory");
    merged && check_columned(function, &ssa, &anf, tail)
}

#[test]
fn each_part_of_a_normal_form_counts(rt: HostRuntime) {
    for example in [Example::Sign, Example::Loop] {
        let mut edit = Edit::none();
        let form = anf(&rt, example, &mut edit);
        assert!(rt; called(&rt, example, &form), "the form itself");
        for place in 0..edit.numbers() {
            for to in [0, 1, 2, 3, 4, 9] {
                let mut edit = Edit::number(place, to);
                let accepted = called(&rt, example, &anf(&rt, example, &mut edit));
                assert!(rt;
                    accepted == edit.changes_nothing(),
                    "number {place} is {to}"
                );
            }
        }
        for place in 0..edit.parts() {
            let form = anf(&rt, example, &mut Edit::without(place));
            assert!(rt; !called(&rt, example, &form), "without part {place}");
        }
    }
}

/// The entry of the loop may have its parameter in the other column.
fn is_other_column(example: Example, place: usize, to: u32) -> bool {
    match example {
        Example::Sign | Example::SignOfTwo => false,
        Example::Loop => place == 2 && to == 1,
    }
}

#[test]
fn each_part_of_a_tail_form_counts(rt: HostRuntime) {
    let schema = no_tables(&rt);
    for example in [Example::Sign, Example::Loop] {
        let function = checked(&rt, &schema, example.text());
        let mut edit = Edit::none();
        let form = tail_of(&rt, example, &mut edit);
        assert!(rt;
            tailed(&rt, function.get(), example, &form),
            "the form itself"
        );
        for place in 0..edit.numbers() {
            for to in [0, 1, 2, 9] {
                let mut edit = Edit::number(place, to);
                let accepted = tailed(
                    &rt,
                    function.get(),
                    example,
                    &tail_of(&rt, example, &mut edit),
                );
                assert!(rt;
                    accepted == (edit.changes_nothing() || is_other_column(example, place, to)),
                    "number {place} is {to}"
                );
            }
        }
        for place in 0..edit.parts() {
            let form = tail_of(&rt, example, &mut Edit::without(place));
            assert!(rt;
                !tailed(&rt, function.get(), example, &form),
                "without part {place}"
            );
        }
    }
}

#[test]
fn labels_and_places_of_a_loop(rt: HostRuntime) {
    let schema = no_tables(&rt);
    let function = checked(&rt, &schema, Example::Loop.text());
    let bigint = Ty::Bigint;
    for (labels, columns, places, want) in [
        // the loop's body too
        (
            [0, 2, 3],
            [bigint, bigint],
            [[0].as_slice(), &[0, 1], &[1, 0]],
            true,
        ),
        // the head is no label
        ([0, 1, 3], [bigint, bigint], [&[0], &[0], &[1, 0]], false),
        // the entry is none
        ([1, 2, 3], [bigint, bigint], [&[0], &[0, 1], &[1, 0]], false),
        // a label twice
        ([0, 2, 2], [bigint, bigint], [&[0], &[0, 1], &[0, 1]], false),
        // two parameters in one column
        ([0, 2, 3], [bigint, bigint], [&[0], &[0, 0], &[1, 0]], false),
        // a column of another type
        (
            [0, 2, 3],
            [bigint, Ty::Boolean],
            [&[0], &[0, 1], &[1, 0]],
            false,
        ),
    ] {
        let form = tail(&rt, &labels, &columns, &places, &mut Edit::none());
        assert!(rt; tailed(&rt, function.get(), Example::Loop, &form) == want);
    }
}

/// Whether the normal form with the edit is taken for the one that the stage ends with.
fn is_same(rt: &(impl Abort + AllocGlobal), function: &CheckedFunction, edit: &mut Edit) -> bool {
    let example = Example::Loop;
    let goto = goto(rt, example, &mut Edit::none());
    let ssa = ssa(rt, example, &mut Edit::none());
    let form = anf(rt, example, &mut Edit::none());
    let other = anf(rt, example, edit);
    let tail = tail_of(rt, example, &mut Edit::none());
    let stage = MergeStage {
        function,
        goto: &goto,
        ssa: &ssa,
    };
    let dst = TailForm {
        anf: &form,
        tail: &tail,
    };
    stage
        .check(rt.alloc(), &AnfForm { anf: &other }, &dst)
        .expect(rt, "memory")
}

#[test]
fn normal_forms_are_compared(rt: HostRuntime) {
    let schema = no_tables(&rt);
    let function = checked(&rt, &schema, Example::Loop.text());
    let mut edit = Edit::none();
    assert!(rt; is_same(&rt, function.get(), &mut edit), "the form itself");
    for place in 0..edit.numbers() {
        let mut other = Edit::number(place, 9);
        assert!(rt; !is_same(&rt, function.get(), &mut other), "number {place}");
    }
    for place in 0..edit.parts() {
        let mut other = Edit::without(place);
        assert!(rt;
            !is_same(&rt, function.get(), &mut other),
            "without part {place}"
        );
    }
}
