//! Limits, names, ranges and patterns, at their bounds and past them.
use super::{CLIENT, IMAGE, POOL, refusal, repeated, script, with_ops};
use lw_script::ScriptRefusal;
use std::test::Fail;

#[test]
fn each_limit_is_met_and_passed(rt: HostRuntime) -> Result<(), Fail> {
    let alloc = rt.alloc();
    let named = r#"{"name":"a","depth":32,"ops":[]}"#;
    let cases = [
        (IMAGE, CLIENT, POOL, None),
        ("", "", POOL, Some(ScriptRefusal::Limit { rule: 1 })),
        (
            r#"{"name":"m","block":8,"blocks":0}"#,
            "",
            POOL,
            Some(ScriptRefusal::Limit { rule: 2 }),
        ),
        (
            r#"{"name":"m","block":8192,"blocks":1}"#,
            "",
            POOL,
            Some(ScriptRefusal::Limit { rule: 2 }),
        ),
        (
            r#"{"name":"m","block":4294967312,"blocks":1}"#,
            "",
            POOL,
            Some(ScriptRefusal::Limit { rule: 2 }),
        ),
        (
            r#"{"name":"m","block":16,"blocks":0}"#,
            "",
            POOL,
            Some(ScriptRefusal::Limit { rule: 3 }),
        ),
        (
            r#"{"name":"m","block":4096,"blocks":4096}"#,
            CLIENT,
            POOL,
            None,
        ),
        (
            r#"{"name":"m","block":4096,"blocks":4097}"#,
            "",
            POOL,
            Some(ScriptRefusal::Limit { rule: 3 }),
        ),
        (
            r#"{"name":"m","block":16,"blocks":18446744073709551615}"#,
            "",
            POOL,
            Some(ScriptRefusal::Limit { rule: 3 }),
        ),
        (
            r#"{"name":"m","block":16,"blocks":1048576}"#,
            r#"{"name":"a","depth":1,"ops":[]}"#,
            "\"small\":1,\"large\":1024",
            None,
        ),
        (
            r#"{"name":"m","block":16,"blocks":1048577}"#,
            "",
            POOL,
            Some(ScriptRefusal::Limit { rule: 3 }),
        ),
        (
            IMAGE,
            "",
            "\"small\":0,\"large\":1",
            Some(ScriptRefusal::Limit { rule: 4 }),
        ),
        (
            IMAGE,
            r#"{"name":"a","depth":0,"ops":[]}"#,
            POOL,
            Some(ScriptRefusal::Limit { rule: 5 }),
        ),
        (
            IMAGE,
            r#"{"name":"a","depth":33,"ops":[]}"#,
            POOL,
            Some(ScriptRefusal::Limit { rule: 5 }),
        ),
        (
            IMAGE,
            r#"{"name":"a","depth":4294967297,"ops":[]}"#,
            POOL,
            Some(ScriptRefusal::Limit { rule: 5 }),
        ),
        (IMAGE, named, "\"small\":1024,\"large\":1", None),
        (
            IMAGE,
            named,
            "\"small\":1025,\"large\":1",
            Some(ScriptRefusal::Limit { rule: 7 }),
        ),
        (
            IMAGE,
            named,
            "\"small\":1,\"large\":0",
            Some(ScriptRefusal::Limit { rule: 7 }),
        ),
        (
            IMAGE,
            named,
            "\"small\":1,\"large\":4294967297",
            Some(ScriptRefusal::Limit { rule: 7 }),
        ),
    ];
    for (images, clients, pool, wanted) in cases {
        let text = script(alloc, images, clients, pool)?;
        assert_eq!(rt; refusal(alloc, text.as_bytes()), wanted, "{text}");
    }
    Ok(())
}

#[test]
fn names_are_short_plain_and_distinct(rt: HostRuntime) -> Result<(), Fail> {
    let alloc = rt.alloc();
    let longest = "abcdefghijklmnopqrstuvwxyz0_-123";
    let cases = [
        ("", Some(ScriptRefusal::Name)),
        ("A", Some(ScriptRefusal::Name)),
        ("é", Some(ScriptRefusal::Name)),
        ("a b", Some(ScriptRefusal::Name)),
        ("_-09az", None),
        (longest, None),
        (
            "abcdefghijklmnopqrstuvwxyz0_-1234",
            Some(ScriptRefusal::Name),
        ),
    ];
    for (name, wanted) in cases {
        let client = format!(in alloc; "{{\"name\":\"{name}\",\"depth\":1,\"ops\":[]}}")?;
        let text = script(alloc, IMAGE, client.as_str(), POOL)?;
        assert_eq!(rt; refusal(alloc, text.as_bytes()), wanted, "{name}");
    }
    let images = repeated(alloc, IMAGE, 2)?;
    let text = script(alloc, images.as_str(), CLIENT, POOL)?;
    assert_eq!(rt; refusal(alloc, text.as_bytes()), Some(ScriptRefusal::Name));
    let clients = repeated(alloc, CLIENT, 2)?;
    let text = script(alloc, IMAGE, clients.as_str(), POOL)?;
    assert_eq!(rt; refusal(alloc, text.as_bytes()), Some(ScriptRefusal::Name));
    Ok(())
}

#[test]
fn ops_are_refused_by_rule_and_then_by_place(rt: HostRuntime) -> Result<(), Fail> {
    let alloc = rt.alloc();
    let range = Some(ScriptRefusal::Range { client: 0, op: 1 });
    let pattern = Some(ScriptRefusal::Pattern { client: 0, op: 1 });
    let cases = [
        (
            r#"["wait",0],["get","n"]"#,
            Some(ScriptRefusal::Limit { rule: 9 }),
        ),
        (
            r#"["wait",1000000001]"#,
            Some(ScriptRefusal::Limit { rule: 9 }),
        ),
        (
            r#"["wait",1000000000],["each"],["visit","m"],["flush","m"],["unregister","m"]"#,
            Some(ScriptRefusal::NotBuilt),
        ),
        (
            r#"["get","n"],["write","m",0,0,""]"#,
            Some(ScriptRefusal::Name),
        ),
        (r#"["get","m"],["write","m",0,0,"ab"]"#, range),
        (
            r#"["write","m",3,1,""],["read","m",4,1],["read","m",5,1]"#,
            range,
        ),
        (
            r#"["write","m",0,4,"ab"],["write","m",18446744073709551615,1,"ab"]"#,
            range,
        ),
        (
            r#"["write","m",0,4,"ab"],["write","m",3,1,""],["write","m",3,1,""]"#,
            pattern,
        ),
        (r#"["put","m"],["write","m",3,1,"a"]"#, pattern),
        (r#"["put","m"],["write","m",3,1,"abc"]"#, pattern),
        (r#"["put","m"],["write","m",3,1,"0g"]"#, pattern),
    ];
    for (ops, wanted) in cases {
        let text = with_ops(alloc, IMAGE, ops)?;
        assert_eq!(rt; refusal(alloc, text.as_bytes()), wanted, "{ops}");
    }
    let digits = String::from_str(
        alloc,
        "00112233445566778899aabbccddeeffFFEEDDCCBBAA99887766554433221100",
    )?;
    let longest = format!(in alloc; "[\"write\",\"m\",0,1,\"{digits}{digits}\"]")?;
    let text = with_ops(alloc, IMAGE, longest.as_str())?;
    assert_eq!(rt; refusal(alloc, text.as_bytes()), None);
    let longer = format!(in alloc; "[\"each\"],[\"write\",\"m\",0,1,\"{digits}{digits}00\"]")?;
    let text = with_ops(alloc, IMAGE, longer.as_str())?;
    assert_eq!(rt; refusal(alloc, text.as_bytes()), pattern);
    Ok(())
}

#[test]
fn bytes_of_ops_are_limited(rt: HostRuntime) -> Result<(), Fail> {
    let alloc = rt.alloc();
    let image = r#"{"name":"m","block":4096,"blocks":4096}"#;
    let read = r#"["read","m",0,32]"#;
    let cases = [
        (read, 128, None),
        (read, 129, Some(ScriptRefusal::Range { client: 0, op: 128 })),
        (r#"["write","m",0,32,"ab"]"#, 129, None),
        (
            r#"["write","m",0,33,"ab"]"#,
            1,
            Some(ScriptRefusal::Range { client: 0, op: 0 }),
        ),
    ];
    for (op, count, wanted) in cases {
        let ops = repeated(alloc, op, count)?;
        let text = with_ops(alloc, image, ops.as_str())?;
        assert_eq!(rt; refusal(alloc, text.as_bytes()), wanted, "{op} {count}");
    }
    Ok(())
}

#[test]
fn counts_are_limited(rt: HostRuntime) -> Result<(), Fail> {
    let alloc = rt.alloc();
    let cases = [
        (r#"["put","m"]"#, 100_000, None),
        (
            r#"["put","m"]"#,
            100_001,
            Some(ScriptRefusal::Limit { rule: 6 }),
        ),
        (r#"["each"]"#, 1000, Some(ScriptRefusal::NotBuilt)),
        (r#"["visit","m"]"#, 1000, Some(ScriptRefusal::NotBuilt)),
        (
            r#"["visit","m"]"#,
            1001,
            Some(ScriptRefusal::Limit { rule: 8 }),
        ),
    ];
    for (op, count, wanted) in cases {
        let ops = repeated(alloc, op, count)?;
        let text = with_ops(alloc, IMAGE, ops.as_str())?;
        assert_eq!(rt; refusal(alloc, text.as_bytes()), wanted, "{op} {count}");
    }
    let parts = [
        (16, 64, Some(ScriptRefusal::Name)),
        (17, 64, Some(ScriptRefusal::Limit { rule: 1 })),
        (16, 65, Some(ScriptRefusal::Limit { rule: 4 })),
    ];
    for (images, clients, wanted) in parts {
        let images = repeated(alloc, IMAGE, images)?;
        let clients = repeated(alloc, CLIENT, clients)?;
        let text = script(alloc, images.as_str(), clients.as_str(), POOL)?;
        assert_eq!(rt; refusal(alloc, text.as_bytes()), wanted);
    }
    Ok(())
}

#[test]
fn sixteen_images_are_read(rt: HostRuntime) -> Result<(), Fail> {
    let alloc = rt.alloc();
    for (count, wanted) in [
        (16, ScriptRefusal::NotBuilt),
        (17, ScriptRefusal::Limit { rule: 1 }),
    ] {
        let mut images = String::from_str(alloc, IMAGE)?;
        for number in 1..count {
            let image = format!(in alloc; ",{{\"name\":\"m{number}\",\"block\":16,\"blocks\":1}}")?;
            images.push_str(image.as_str())?;
        }
        let text = script(alloc, images.as_str(), CLIENT, POOL)?;
        assert_eq!(rt; refusal(alloc, text.as_bytes()), Some(wanted), "{count}");
    }
    Ok(())
}
