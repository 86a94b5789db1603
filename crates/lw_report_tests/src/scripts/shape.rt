//! What is no JSON, and values of another shape.
use super::refusal;
use lw_script::ScriptRefusal;
use std::test::Fail;

#[test]
fn the_shape_comes_before_the_version(rt: HostRuntime) -> Result<(), Fail> {
    let alloc = rt.alloc();
    let cases = [
        ("", ScriptRefusal::NotJson),
        ("{", ScriptRefusal::NotJson),
        ("\u{feff}{}", ScriptRefusal::NotJson),
        (r#""\ud800""#, ScriptRefusal::NotJson),
        ("1e999", ScriptRefusal::NotJson),
        ("[]", ScriptRefusal::Shape { rule: 1 }),
        (
            r#"{"version":1,"images":[],"clients":[],"pool":{},"more":0}"#,
            ScriptRefusal::Shape { rule: 1 },
        ),
        (
            r#"{"version":1.0,"images":0,"clients":0,"pool":{}}"#,
            ScriptRefusal::Shape { rule: 2 },
        ),
        (
            r#"{"version":-0,"images":0,"clients":0,"pool":{}}"#,
            ScriptRefusal::Shape { rule: 2 },
        ),
        (
            r#"{"version":1e2,"images":0,"clients":0,"pool":{}}"#,
            ScriptRefusal::Shape { rule: 2 },
        ),
        (
            r#"{"version":18446744073709551616,"images":0,"clients":0,"pool":0}"#,
            ScriptRefusal::Shape { rule: 2 },
        ),
        (
            r#"{"version":2,"images":0,"clients":0,"pool":{"small":1}}"#,
            ScriptRefusal::Shape { rule: 3 },
        ),
        (
            r#"{"version":2,"images":[0],"clients":0,"pool":{"small":1,"large":1}}"#,
            ScriptRefusal::Shape { rule: 4 },
        ),
        (
            r#"{"version":2,"images":[],"clients":[{"name":"a"}],"pool":{"small":1,"large":1}}"#,
            ScriptRefusal::Shape { rule: 5 },
        ),
        (
            r#"{"version":2,"images":[],"clients":[{"name":"a","depth":1,"ops":[["get"]]}],"pool":{"small":1,"large":1}}"#,
            ScriptRefusal::Shape { rule: 6 },
        ),
        (
            r#"{"version":2,"images":[],"clients":[{"name":"a","depth":1,"ops":[["wait",1.0]]}],"pool":{"small":1,"large":1}}"#,
            ScriptRefusal::Shape { rule: 6 },
        ),
        (
            r#"{"version":2,"images":[],"clients":[],"pool":{"small":1,"large":1}}"#,
            ScriptRefusal::Version,
        ),
        (
            r#"{"version":2,"images":[],"clients":[],"pool":{"small":"","large":1,"small":1}}"#,
            ScriptRefusal::Version,
        ),
        (
            r#"{"version":2,"images":[],"clients":[],"pool":{"small":1,"large":1,"small":""}}"#,
            ScriptRefusal::Shape { rule: 3 },
        ),
        (
            r#"{"version":2,"images":[],"clients":[],"pool":{"small":1,"large":1},"version":1}"#,
            ScriptRefusal::Limit { rule: 1 },
        ),
    ];
    for (text, wanted) in cases {
        assert_eq!(rt; refusal(alloc, text.as_bytes()), Some(wanted), "{text}");
    }
    assert_eq!(rt; refusal(alloc, &[255]), Some(ScriptRefusal::NotJson));
    Ok(())
}

#[test]
fn long_and_deep_texts_are_refused(rt: HostRuntime) -> Result<(), Fail> {
    let alloc = rt.alloc();
    let mut spaces: Vec<u8> = vec![in alloc; b' '; 16_777_216]?;
    assert_eq!(rt;
        refusal(alloc, spaces.as_slice()),
        Some(ScriptRefusal::NotJson)
    );
    spaces.push(b' ')?;
    assert_eq!(rt;
        refusal(alloc, spaces.as_slice()),
        Some(ScriptRefusal::TooLong)
    );
    for (depth, wanted) in [
        (127, ScriptRefusal::Shape { rule: 1 }),
        (128, ScriptRefusal::NotJson),
    ] {
        let mut nested = String::new(alloc);
        for _ in 0..depth {
            nested.push_str("[")?;
        }
        for _ in 0..depth {
            nested.push_str("]")?;
        }
        assert_eq!(rt; refusal(alloc, nested.as_bytes()), Some(wanted), "{depth}");
    }
    Ok(())
}
