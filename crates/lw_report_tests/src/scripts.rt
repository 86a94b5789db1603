//! Scripts against the table of refusals, worked out by hand from the format.
use lw_script::{Op, ScriptRefusal, read_script};
use std::alloc::{AllocError, Global};
use std::test::Fail;

mod rules;
mod shape;

const IMAGE: &str = r#"{"name":"m","block":16,"blocks":4}"#;

const CLIENT: &str = r#"{"name":"a","depth":4,"ops":[]}"#;

const POOL: &str = r#""small":4,"large":1"#;

fn refusal(alloc: Global, text: &[u8]) -> Option<ScriptRefusal> {
    read_script(alloc, text).err()
}

fn script(alloc: Global, images: &str, clients: &str, pool: &str) -> Result<String, AllocError> {
    let mut text = String::from_str(alloc, r#"{"version":1,"images":["#)?;
    text.push_str(images)?;
    text.push_str(r#"],"clients":["#)?;
    text.push_str(clients)?;
    text.push_str(r#"],"pool":{"#)?;
    text.push_str(pool)?;
    text.push_str("}}")?;
    Ok(text)
}

// A script of one image and one client with these ops.
fn with_ops(alloc: Global, image: &str, ops: &str) -> Result<String, AllocError> {
    let mut client = String::from_str(alloc, r#"{"name":"a","depth":4,"ops":["#)?;
    client.push_str(ops)?;
    client.push_str("]}")?;
    script(alloc, image, client.as_str(), POOL)
}

// So many items with commas between them.
fn repeated(alloc: Global, item: &str, count: u32) -> Result<String, AllocError> {
    let mut text = String::from_str(alloc, item)?;
    for _ in 1..count {
        text.push_str(",")?;
        text.push_str(item)?;
    }
    Ok(text)
}

#[test]
fn a_script_has_the_values_of_its_text(rt: HostRuntime) -> Result<(), Fail> {
    let alloc = rt.alloc();
    let ops = r#"["get","m"],["write","m",1,2,"aB01"],["read","m",0,3],["put","m"]"#;
    let text = with_ops(alloc, IMAGE, ops)?;
    let script = read_script(alloc, text.as_bytes())?;
    assert!(rt; script.small == 4 && script.large == 1);
    let images = script.images.as_slice();
    assert_eq!(rt; images.len(), 1);
    assert!(rt; images[0].name.as_str() == "m" && images[0].block == 16 && images[0].blocks == 4);
    let clients = script.clients.as_slice();
    assert_eq!(rt; clients.len(), 1);
    assert!(rt; clients[0].name.as_str() == "a" && clients[0].depth == 4);
    let ops = clients[0].ops.as_slice();
    assert_eq!(rt; ops.len(), 4);
    assert!(rt; matches!(&ops[0], Op::Get { image: 0 }));
    match &ops[1] {
        Op::Write {
            image,
            start,
            count,
            pattern,
        } => {
            assert!(rt; *image == 0 && *start == 1 && *count == 2);
            assert!(rt; pattern.as_slice() == [0xab, 1].as_slice());
        }
        _ => assert!(rt; false),
    }
    assert!(rt;
        matches!(
            &ops[2],
            Op::Read {
                image: 0,
                start: 0,
                count: 3
            }
        )
    );
    assert!(rt; matches!(&ops[3], Op::Put { image: 0 }));
    Ok(())
}

#[test]
fn a_refusal_prints_as_its_line(rt: HostRuntime) -> Result<(), Fail> {
    let alloc = rt.alloc();
    let cases = [
        (ScriptRefusal::TooLong, "script: too long"),
        (ScriptRefusal::NotJson, "script: not JSON"),
        (ScriptRefusal::Shape { rule: 6 }, "script: shape 6"),
        (ScriptRefusal::Version, "script: version"),
        (ScriptRefusal::Limit { rule: 9 }, "script: limit 9"),
        (ScriptRefusal::Name, "script: name"),
        (
            ScriptRefusal::Range {
                client: 63,
                op: 99_999,
            },
            "script: range at client 63 op 99999",
        ),
        (
            ScriptRefusal::Pattern { client: 0, op: 1 },
            "script: pattern at client 0 op 1",
        ),
        (ScriptRefusal::NotBuilt, "script: not built"),
        (ScriptRefusal::NoMemory, "out of memory"),
    ];
    for (refusal, wanted) in cases {
        let line = format!(in alloc; "{refusal}")?;
        assert_eq!(rt; line.as_str(), wanted);
    }
    Ok(())
}
