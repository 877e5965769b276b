//! Certificates that are read and written, and texts that are none.

use cert_json::{CertField, CertRefusal, read_cert, write_cert};
use std::alloc::{AllocError, Global};
use std::test::Fail;

// a function of one test: `IF a > 0 THEN RETURN 1; END IF; RETURN 2;`
static SIGN: &str =
    "{\"goto\":{\"entry\":0,\"end\":4,\"nodes\":[1,1,1,1,2,3],\"blocks\":[[false,null,[\"jump\",1]],[\
    false,null,[\"branch\",0,[0],2,3]],[false,null,[\"return\",1,[]]],[false,null,[\"return\",2,[]]]\
    ,[false,null,[\"fail\",\"2F005\"]]]},\"ssa\":{\"names\":[0],\"blocks\":[[[[0,0]],[],null,[\"jump\
    \",1]],[[[0,0]],[],null,[\"branch\",0,[0],2,3]],[[],[],null,[\"return\",1,[]]],[[],[],null,[\"re\
    turn\",2,[]]],[[],[],null,[\"fail\",\"2F005\"]]]},\"anf\":{\"blocks\":[[[0],null,[\"call\",1,[0]\
    ]],[[0],null,[\"if\",0,[0],2,[],3,[]]],[[],null,[\"return\",1,[]]],[[],null,[\"return\",2,[]]],[\
    [],null,[\"fail\",\"2F005\"]]]},\"labels\":[3,2,1,0],\"columns\":[\"bigint\"],\"places\":[[],[],\
    [0],[0]]}";

// the same, with the names in their order
static SORTED: &str =
    "{\"anf\":{\"blocks\":[[[0],null,[\"call\",1,[0]]],[[0],null,[\"if\",0,[0],2,[],3,[]]],[[],null,[\
    \"return\",1,[]]],[[],null,[\"return\",2,[]]],[[],null,[\"fail\",\"2F005\"]]]},\"columns\":[\"bi\
    gint\"],\"goto\":{\"blocks\":[[false,null,[\"jump\",1]],[false,null,[\"branch\",0,[0],2,3]],[fal\
    se,null,[\"return\",1,[]]],[false,null,[\"return\",2,[]]],[false,null,[\"fail\",\"2F005\"]]],\"e\
    nd\":4,\"entry\":0,\"nodes\":[1,1,1,1,2,3]},\"labels\":[3,2,1,0],\"places\":[[],[],[0],[0]],\"ss\
    a\":{\"blocks\":[[[[0,0]],[],null,[\"jump\",1]],[[[0,0]],[],null,[\"branch\",0,[0],2,3]],[[],[],\
    null,[\"return\",1,[]]],[[],[],null,[\"return\",2,[]]],[[],[],null,[\"fail\",\"2F005\"]]],\"name\
    s\":[0]}}";

// a loop, and each part of a certificate at least once
static LOOP: &str =
    "{\"anf\":{\"blocks\":[[[0],null,[\"call\",1,[0]]],[[0],[1,14,[0]],[\"call\",2,[1,0]]],[[2,0],nul\
    l,[\"if\",0,[2,0],3,[2,0],4,[2]]],[[2,0],[3,12,[2]],[\"call\",2,[3,0]]],[[2],null,[\"return\",1,\
    [2]]],[[],null,[\"fail\",\"ZZZZZ\"]]]},\"columns\":[\"bigint\",\"boolean\",\"text\",\"integer\"],\"goto\":{\
    \"blocks\":[[false,null,[\"jump\",1]],[false,[0,14,[1]],[\"jump\",2]],[true,null,[\"branch\",0,[\
    0,1],3,4]],[false,[0,12,[0]],[\"jump\",2]],[false,null,[\"return\",1,[0]]],[false,null,[\"fail\"\
    ,\"AB123\"]]],\"end\":5,\"entry\":0,\"nodes\":[1]},\"labels\":[0,2,4294967295],\"places\":[[0],[\
    1,0],[]],\"ssa\":{\"blocks\":[[[[1,0]],[],null,[\"jump\",1]],[[[1,0]],[],[1,14,[0]],[\"jump\",2]\
    ],[[[0,2],[1,0]],[[2,[[1,1],[3,3]]]],null,[\"branch\",0,[2,0],3,4]],[[[0,2]],[[9,[]]],[3,12,[2]]\
    ,[\"jump\",2]],[[],[],null,[\"return\",1,[2]]],[[],[],null,[\"fail\",\"00000\"]]],\"names\":[1,0\
    ,0,0]}}";

/// The first certificate with one part of its text changed.
fn edited(alloc: Global, old: &str, new: &str) -> Result<String, AllocError> {
    let Some((front, back)) = SIGN.split_once(old) else {
        return Err(AllocError);
    };
    format!(in alloc; "{front}{new}{back}")
}

fn refusal(alloc: Global, text: &str) -> Option<CertRefusal> {
    read_cert(alloc, text.as_bytes()).err()
}

#[test]
fn certificates_are_written_as_they_are_read(rt: HostRuntime) -> Result<(), Fail> {
    for (text, written) in [(SIGN, SORTED), (SORTED, SORTED), (LOOP, LOOP)] {
        let cert = read_cert(rt.alloc(), text.as_bytes())?;
        let bytes = write_cert(rt.alloc(), &cert)?;
        assert!(rt; bytes.as_slice() == written.as_bytes());
    }
    Ok(())
}

static EDITS: [(&str, &str, CertField); 44] = [
    ("\"goto\":{", "\"go\":{", CertField::GotoEntry),
    ("\"entry\":0", "\"entry\":4294967296", CertField::GotoEntry),
    ("\"entry\":0", "\"entry\":-1", CertField::GotoEntry),
    ("\"entry\":0", "\"entry\":-0", CertField::GotoEntry),
    ("\"entry\":0", "\"entry\":1.0", CertField::GotoEntry),
    ("\"entry\":0", "\"entry\":1e3", CertField::GotoEntry),
    ("\"entry\":0", "\"entry\":\"0\"", CertField::GotoEntry),
    (
        "\"entry\":0",
        "\"entry\":18446744073709551616",
        CertField::GotoEntry,
    ),
    ("\"entry\":0,\"end\":4", "\"entry\":0", CertField::GotoEnd),
    ("\"end\":4", "\"end\":null", CertField::GotoEnd),
    ("\"nodes\":[1,", "\"nodes\":[null,", CertField::GotoNodes),
    (
        "\"nodes\":[1,1,1,1,2,3]",
        "\"nodes\":{}",
        CertField::GotoNodes,
    ),
    (
        "[false,null,[\"jump\",1]]",
        "[0,null,[\"jump\",1]]",
        CertField::GotoBlocks,
    ),
    (
        "[false,null,[\"jump\",1]]",
        "[false,[\"jump\",1]]",
        CertField::GotoBlocks,
    ),
    (
        "[false,null,[\"jump\",1]]",
        "[false,null,[\"jump\",1],0]",
        CertField::GotoBlocks,
    ),
    (
        "[false,null,[\"jump\",1]]",
        "[false,[0,1],[\"jump\",1]]",
        CertField::GotoBlocks,
    ),
    (
        "[false,null,[\"jump\",1]]",
        "[false,false,[\"jump\",1]]",
        CertField::GotoBlocks,
    ),
    ("[\"jump\",1]", "[\"jump\"]", CertField::GotoBlocks),
    ("[\"jump\",1]", "[\"Jump\",1]", CertField::GotoBlocks),
    ("[\"jump\",1]", "[\"call\",1,[]]", CertField::GotoBlocks),
    ("[\"jump\",1]", "[]", CertField::GotoBlocks),
    (
        "[\"branch\",0,[0],2,3]",
        "[\"branch\",0,[0],2]",
        CertField::GotoBlocks,
    ),
    (
        "[\"return\",1,[]]",
        "[\"return\",1,0]",
        CertField::GotoBlocks,
    ),
    ("\"2F005\"", "\"2f005\"", CertField::GotoBlocks),
    ("\"2F005\"", "\"2F00\"", CertField::GotoBlocks),
    ("\"2F005\"", "\"2F0050\"", CertField::GotoBlocks),
    ("\"ssa\":{", "\"s\":{", CertField::SsaNames),
    ("\"names\":[0]", "\"names\":[[0]]", CertField::SsaNames),
    (
        "\"blocks\":[[[[0,0]],[],null,[\"jump\",1]]",
        "\"blocks\":[[[[0]],[],null,[\"jump\",1]]",
        CertField::SsaBlocks,
    ),
    (
        "\"blocks\":[[[[0,0]],[],null,[\"jump\",1]]",
        "\"blocks\":[[[[0,0]],[0],null,[\"jump\",1]]",
        CertField::SsaBlocks,
    ),
    (
        "\"blocks\":[[[[0,0]],[],null,[\"jump\",1]]",
        "\"blocks\":[[[[0,0]],[[0]],null,[\"jump\",1]]",
        CertField::SsaBlocks,
    ),
    (
        "\"blocks\":[[[[0,0]],[],null,[\"jump\",1]]",
        "\"blocks\":[[[[0,0]],[],[\"jump\",1]]",
        CertField::SsaBlocks,
    ),
    ("\"anf\":{", "\"a\":{", CertField::AnfBlocks),
    ("[\"call\",1,[0]]", "[\"jump\",1]", CertField::AnfBlocks),
    ("[\"call\",1,[0]]", "[\"call\",1]", CertField::AnfBlocks),
    (
        "[\"if\",0,[0],2,[],3,[]]",
        "[\"if\",0,[0],2,[],3]",
        CertField::AnfBlocks,
    ),
    (
        "[\"if\",0,[0],2,[],3,[]]",
        "[\"branch\",0,[0],2,3]",
        CertField::AnfBlocks,
    ),
    ("\"labels\"", "\"label\"", CertField::Labels),
    ("\"labels\":[3,", "\"labels\":[true,", CertField::Labels),
    ("\"bigint\"", "\"int\"", CertField::Columns),
    ("\"bigint\"", "\"BIGINT\"", CertField::Columns),
    (
        "\"columns\":[\"bigint\"]",
        "\"columns\":\"bigint\"",
        CertField::Columns,
    ),
    ("\"places\":[[],", "\"places\":[0,", CertField::Places),
    (",\"places\"", ",\"spaces\"", CertField::Places),
];

#[test]
fn the_first_field_without_its_shape_is_told(rt: HostRuntime) -> Result<(), Fail> {
    for (old, new, field) in &EDITS {
        let text = edited(rt.alloc(), old, new)?;
        assert!(rt;
            refusal(rt.alloc(), text.as_str()) == Some(CertRefusal::Field(*field)),
            "{old} is {new}"
        );
    }
    for text in ["{}", "[]", "null", "7", "{\"goto\":[]}"] {
        assert!(rt;
            refusal(rt.alloc(), text) == Some(CertRefusal::Field(CertField::GotoEntry)),
            "{text}"
        );
    }
    Ok(())
}

#[test]
fn what_is_no_json_is_told(rt: HostRuntime) -> Result<(), Fail> {
    for text in ["", "{", "{}{}", "{\"goto\":}", "'"] {
        assert!(rt;
            refusal(rt.alloc(), text) == Some(CertRefusal::NotJson),
            "{text}"
        );
    }
    let bytes = SIGN.as_bytes();
    let cut = read_cert(rt.alloc(), &bytes[..bytes.len() - 1]);
    assert!(rt; cut.err() == Some(CertRefusal::NotJson));
    assert!(rt; read_cert(rt.alloc(), &[0x22, 0xff, 0x22]).err() == Some(CertRefusal::NotJson));
    Ok(())
}

static ALIKE: [(&str, &str); 5] = [
    ("\"labels\"", "\"note\":1.5,\"labels\""),
    ("\"entry\":0", "\"entry\":9,\"more\":[{}],\"entry\":0"),
    ("\"goto\":{", "\"goto\":null,\"goto\":{"),
    ("null", " null\n"),
    ("jump", "j\\u0075mp"),
];

#[test]
fn other_fields_spaces_and_escapes_change_nothing(rt: HostRuntime) -> Result<(), Fail> {
    for (old, new) in &ALIKE {
        let text = edited(rt.alloc(), old, new)?;
        let cert = read_cert(rt.alloc(), text.as_str().as_bytes())?;
        let bytes = write_cert(rt.alloc(), &cert)?;
        assert!(rt; bytes.as_slice() == SORTED.as_bytes(), "{new}");
    }
    Ok(())
}

#[test]
fn a_long_list_is_read_and_written(rt: HostRuntime) -> Result<(), Fail> {
    let mut numbers = String::from_str(rt.alloc(), "\"nodes\":[4294967295")?;
    for i in 0..20000u32 {
        numbers.push_str(format!(in rt.alloc(); ",{i}")?.as_str())?;
    }
    let text = edited(rt.alloc(), "\"nodes\":[1", numbers.as_str())?;
    let cert = read_cert(rt.alloc(), text.as_str().as_bytes())?;
    assert_eq!(rt; cert.goto.nodes.len(), 20006);
    let bytes = write_cert(rt.alloc(), &cert)?;
    assert_eq!(rt; bytes.len(), text.len());
    let again = read_cert(rt.alloc(), bytes.as_slice())?;
    assert!(rt; again.goto.nodes.as_slice() == cert.goto.nodes.as_slice());
    Ok(())
}
