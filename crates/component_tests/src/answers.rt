ghost use Rattle.std.specs.Prelude.{◌≤◌, length};
ghost use Rattle.edge_text.specs.declared.limits.TheConstants.{MOST_BYTES};

use component_answer::{Answer, Form, Reach, Wanted, answer_text};
use edge_text::{Fault, MOST_BYTES, first_fault};
use search_stack::groups_plain;
use std::alloc::{AllocError, Global};
use std::test::Fail;

const LINES: Wanted = Wanted {
    order: false,
    form: Form::Lines,
    loops: false,
    from_json: false,
};

const ORDERED: Wanted = Wanted {
    order: true,
    form: Form::Lines,
    loops: false,
    from_json: false,
};

const JSON: Wanted = Wanted {
    order: false,
    form: Form::Json,
    loops: false,
    from_json: false,
};

const LOOPS: Wanted = Wanted {
    order: true,
    form: Form::Lines,
    loops: true,
    from_json: false,
};

/// What one search has to say of a text.
fn answer_of(
    alloc: Global,
    text: &[u8],
    roots: &[&[u8]],
    wanted: Wanted,
) -> Result<Answer, AllocError>
    requires { length text.now ≤ MOST_BYTES }
{
    answer_text(alloc, text, roots, wanted, |reach: Reach<'_>| {
        groups_plain(alloc, reach.graph, reach.starts)
    })
}

/// The bytes of a report.
fn report_in(answer: Answer) -> Option<Vec<u8>> {
    match answer {
        Answer::Report(bytes) => Some(bytes),
        _ => None,
    }
}

#[test]
fn lines_are_in_order_of_heights_and_names(rt: HostRuntime) -> Result<(), Fail> {
    let alloc = rt.alloc();
    let text = b"main parse run\nparse term\r\n# a comment\n\tterm parse parse\nrun";
    let bytes = report_in(answer_of(alloc, text, &[], LINES)?).ok_or("no report")?;
    assert_eq!(rt;
        bytes.as_slice(),
        b"nodes 4 groups 3 recursive 1 levels 2\n0 recursive parse term\n0 plain run\n1 plain main\n".as_slice()
    );
    Ok(())
}

#[test]
fn groups_come_as_they_are_found(rt: HostRuntime) -> Result<(), Fail> {
    let alloc = rt.alloc();
    let bytes = report_in(answer_of(alloc, b"c b\nb b\na", &[], ORDERED)?).ok_or("no report")?;
    assert_eq!(rt;
        bytes.as_slice(),
        b"nodes 3 groups 3 recursive 1 levels 2\n0 plain a\n0 recursive b\n1 plain c\n".as_slice()
    );
    Ok(())
}

#[test]
fn an_empty_text_has_no_nodes(rt: HostRuntime) -> Result<(), Fail> {
    let alloc = rt.alloc();
    let bytes = report_in(answer_of(alloc, b"", &[], LINES)?).ok_or("no report")?;
    assert_eq!(rt;
        bytes.as_slice(),
        b"nodes 0 groups 0 recursive 0 levels 0\n".as_slice()
    );
    Ok(())
}

#[test]
fn json_has_a_list_for_a_name_that_is_no_text(rt: HostRuntime) -> Result<(), Fail> {
    let alloc = rt.alloc();
    let bytes = report_in(answer_of(alloc, b"\xff\x07", &[], JSON)?).ok_or("no report")?;
    assert!(rt;
        bytes.ends_with(b"{\"id\":0,\"height\":0,\"recursive\":false,\"members\":[[255,7]]}\n")
    );
    Ok(())
}

#[test]
fn json_escapes_quotes_and_control_characters(rt: HostRuntime) -> Result<(), Fail> {
    let alloc = rt.alloc();
    let bytes = report_in(answer_of(alloc, b"\"\\\x01\xc3\xa9 b\nb b", &[], JSON)?).ok_or(
        "no report",
    )?;
    assert!(rt; bytes.starts_with(b"{\"nodes\":2,\"groups\":2,\"recursive\":1,\"levels\":2}\n"));
    assert!(rt;
        bytes.ends_with(
            b"{\"id\":1,\"height\":1,\"recursive\":false,\"members\":[\"\\\"\\\\\\u0001\xc3\xa9\"]}\n"
        )
    );
    Ok(())
}

#[test]
fn cycles_are_shortest_and_least(rt: HostRuntime) -> Result<(), Fail> {
    let alloc = rt.alloc();
    let text = b"z a y\na y b z\nb c\nc a\ny x\nx a\nz z\ny y\n";
    let bytes = report_in(answer_of(alloc, text, &[b"a"], LOOPS)?).ok_or("no report")?;
    assert!(rt; bytes.ends_with(b"recursive a b c x y z\nloop a z\n"));
    let bytes = report_in(answer_of(alloc, b"z y\ny z\na b\nb\nz a\n", &[], LOOPS)?).ok_or(
        "no report",
    )?;
    assert!(rt; bytes.ends_with(b"recursive y z\nloop y z\n"));
    Ok(())
}

#[test]
fn roots_may_have_any_bytes(rt: HostRuntime) -> Result<(), Fail> {
    let alloc = rt.alloc();
    let roots: [&[u8]; 2] = [b"\xff", b"b"];
    let bytes = report_in(answer_of(alloc, b"a b\n\xff\xfe\nb\n\xff b", &roots, LINES)?).ok_or(
        "no report",
    )?;
    assert_eq!(rt;
        bytes.as_slice(),
        b"nodes 2 groups 2 recursive 0 levels 2\n0 plain b\n1 plain \xff\n".as_slice()
    );
    let missing = answer_of(alloc, b"a b", &roots, LINES)?;
    assert!(rt; matches!(missing, Answer::NoNode(0)));
    Ok(())
}

#[test]
fn a_name_may_have_any_bytes(rt: HostRuntime) -> Result<(), Fail> {
    let alloc = rt.alloc();
    let bytes = report_in(answer_of(alloc, b"\xff\x00 \xff", &[], LINES)?).ok_or("no report")?;
    assert_eq!(rt;
        bytes.as_slice(),
        b"nodes 2 groups 2 recursive 0 levels 2\n0 plain \xff\n1 plain \xff\x00\n".as_slice()
    );
    Ok(())
}

#[test]
fn a_name_that_is_too_long_has_a_place(rt: HostRuntime) -> Result<(), Fail> {
    let alloc = rt.alloc();
    let mut text = b"a b\n c ".to_vec(alloc)?;
    let long = vec![in alloc; b'n'; 65_537]?;
    text.extend_from_slice(&long)?;
    assert!(rt; text.len() <= MOST_BYTES);
    let found = first_fault(&text);
    assert!(rt; matches!(found, Some(Fault { line: 2, column: 4 })));
    text.truncate(65_543);
    assert!(rt; text.len() <= MOST_BYTES);
    assert!(rt; first_fault(&text).is_none());
    Ok(())
}
