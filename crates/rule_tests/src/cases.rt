//! Cases of some numbers. The expected texts were written by a program in Python that has nothing from here.

use away_gen::{DemoCase, make_case};
use away_values::{NoMemory, Value};
use std::alloc::Global;
use std::test::Fail;

/// What is known of a case: how its texts begin and end, how long they are, and its arguments.
struct Known {
    number: u64,
    table_begins: &'static str,
    table_ends: &'static str,
    table_len: usize,
    loop_begins: &'static str,
    loop_ends: &'static str,
    function_len: usize,
    first: i64,
    second: i64,
}

const SCHEMA: &str = "CREATE TABLE route (src bigint, dst bigint, cost bigint);";

const FUNCTION_BEGINS: &str =
    "CREATE FUNCTION public.demo(a bigint, b bigint) RETURNS bigint LANGUAGE plpgsql AS $$ DECLARE v0 bigint := a; v1 bigint := b; v2 bigint := 0; v3 bigint := 1; t bigint := 0; BEGIN WHILE t < 20 LOOP\n";

const FUNCTION_ENDS: &str = "\nt := t + 1; END LOOP; RETURN v0 + v1 + v2 + v3; END; $$;";

static CASES: [Known; 5] = [
    Known {
        number: 0,
        table_begins: "src,dst,cost\n4,7,236\n5,1,184\n5,4,139\n",
        table_ends: "235\n5,0,468\n9,8,275\n",
        table_len: 463,
        loop_begins: "FOR k IN 1..39 LOOP v3 := v3 + k; EXIT WHEN v3 % 7 = 3; END LOOP;\nIF v1 > v0 THEN v1 := v1 - v0; ELSE v0 := v0 + 1; END IF;\n",
        loop_ends: "\nIF v3 > v1 THEN v3 := v3 - v1; ELSE v1 := v1 + 1; END IF;",
        function_len: 3492,
        first: 186,
        second: 470,
    },
    Known {
        number: 7,
        table_begins: "src,dst,cost\n1,3,673\n5,9,864\n4,9,686\n5,5,632\n0,9,962\n5,9,796\n",
        table_ends: ",422\n1,3,44\n0,4,442\n",
        table_len: 630,
        loop_begins: "v0 := v3 + 3;\nv1 := COALESCE((SELECT max(r.cost) FROM route r WHERE r.src = v2 % 10), 0);\nv1 := v0 + 6;\nIF v0 > v0 THEN v0 := v0 - v0; ELSE v0 := v0 + 1; END IF;\n",
        loop_ends: "\nFOR k IN 1..75 LOOP v1 := v1 + k; EXIT WHEN v1 % 7 = 3; END LOOP;",
        function_len: 2775,
        first: 374,
        second: 54,
    },
    Known {
        number: 2589,
        table_begins: "src,dst,cost\n3,6,212\n",
        table_ends: "\n5,3,807\n8,1,56\n",
        table_len: 793,
        loop_begins: "v1 := v1 * 75 % 1000000;\nv2 := v2 * 97 % 1000000;\n",
        loop_ends: "\nFOR k IN 1..72 LOOP v1 := v1 + k; EXIT WHEN v1 % 7 = 3; END LOOP;",
        function_len: 3480,
        first: 581,
        second: 280,
    },
    Known {
        number: 12_345_678_901_234_567_890,
        table_begins: "src,dst,cost\n8,9,445\n",
        table_ends: "\n3,7,163\n6,2,15\n",
        table_len: 493,
        loop_begins: "v1 := v0 * 66 % 1000000;\nIF v0 > v1 THEN v0 := v0 - v1; ELSE v1 := v1 + 1; END IF;\n",
        loop_ends: "\nv1 := v0 * 97 % 1000000;",
        function_len: 2400,
        first: 123,
        second: 927,
    },
    Known {
        number: u64::MAX,
        table_begins: "src,dst,cost\n3,7,602\n",
        table_ends: "\n6,7,501\n2,0,29\n",
        table_len: 712,
        loop_begins: "v0 := v1 + 2;\nv3 := v2 * 75 % 1000000;\n",
        loop_ends: "\nFOR k IN 1..59 LOOP v1 := v1 + k; EXIT WHEN v1 % 7 = 3; END LOOP;",
        function_len: 2534,
        first: 799,
        second: 280,
    },
];

fn is_schema(made: &DemoCase) -> bool {
    made.schema.as_slice() == SCHEMA.as_bytes()
}

fn is_table(made: &DemoCase, known: &Known) -> bool {
    let Ok(table) = str::from_utf8(&made.table) else {
        return false;
    };
    table.len() == known.table_len
        && table.starts_with(known.table_begins)
        && table.ends_with(known.table_ends)
}

fn is_function(made: &DemoCase, known: &Known) -> bool {
    let Ok(function) = str::from_utf8(&made.function) else {
        return false;
    };
    if function.len() != known.function_len {
        return false;
    }
    let Some(rest) = function.strip_prefix(FUNCTION_BEGINS) else {
        return false;
    };
    let Some(statements) = rest.strip_suffix(FUNCTION_ENDS) else {
        return false;
    };
    statements.starts_with(known.loop_begins) && statements.ends_with(known.loop_ends)
}

fn are_arguments(made: &DemoCase, known: &Known) -> bool {
    match made.args.as_slice() {
        [Value::Int(first), Value::Int(second)] => *first == known.first && *second == known.second,
        _ => false,
    }
}

fn is_known(alloc: Global, known: &Known) -> Result<bool, NoMemory> {
    let made = make_case(alloc, known.number)?;
    Ok(
        is_schema(&made)
            && is_table(&made, known)
            && is_function(&made, known)
            && are_arguments(&made, known),
    )
}

#[test]
fn cases_have_their_texts(rt: HostRuntime) -> Result<(), Fail> {
    for known in &CASES {
        assert!(rt; is_known(rt.alloc(), known)?);
    }
    Ok(())
}

/// No number is refused for more than memory.
#[test]
fn every_number_has_a_case(rt: HostRuntime) -> Result<(), Fail> {
    for number in 0..200 {
        let made = make_case(rt.alloc(), number)?;
        assert!(rt; is_schema(&made));
    }
    Ok(())
}
