//! Drawn scripts, op by op, against those of an independent generator.
use lw_base::NoMemory;
use lw_model::{ClientOf, Op};
use lw_workload::load_script;
use std::alloc::Global;
use std::test::Fail;

// What an op does, in a line.
fn line(alloc: Global, op: &Op) -> Result<String, NoMemory> {
    Ok(match op {
        Op::Get { image } => format!(in alloc; "get {}", *image)?,
        Op::Put { image } => format!(in alloc; "put {}", *image)?,
        Op::Read {
            image,
            start,
            count,
        } => { format!(in alloc; "read {} {} {}", *image, *start, *count)? }
        Op::Flush { image } => format!(in alloc; "flush {}", *image)?,
        Op::Write {
            image,
            start,
            count,
            ..
        } => { format!(in alloc; "write {} {} {}", *image, *start, *count)? }
        _ => format!(in alloc; "another")?,
    })
}

// Whether the drawn ops of a client are these, between the gets and the puts of four images.
fn draws(alloc: Global, client: &ClientOf, lines: &[&str]) -> Result<bool, NoMemory> {
    let ops = client.ops.as_slice();
    if ops.len() != lines.len() + 8 {
        return Ok(false);
    }
    for (op, wanted) in ops[4..].iter().zip(lines.iter()) {
        if line(alloc, op)?.as_str() != *wanted {
            return Ok(false);
        }
    }
    Ok(true)
}

// The bytes of a client's first drawn write.
fn pattern(client: &ClientOf) -> Option<&[u8]> {
    match client.ops.as_slice().get(4)? {
        Op::Write { pattern, .. } => Some(pattern.as_slice()),
        _ => None,
    }
}

#[test]
fn ten_ops_of_seven(rt: HostRuntime) -> Result<(), Fail> {
    let alloc = rt.alloc();
    let script = load_script(alloc, 7, 10)?;
    let clients = script.clients.as_slice();
    assert_eq!(rt; clients.len(), 8);
    assert!(rt; draws(alloc, &clients[0], &["write 3 28 1", "write 1 38 1"])?);
    assert!(rt; draws(alloc, &clients[1], &["flush 1", "write 2 228 1"])?);
    assert!(rt; draws(alloc, &clients[2], &["read 0 293 1"])?);
    assert!(rt; draws(alloc, &clients[4], &["write 3 531 1"])?);
    assert!(rt; draws(alloc, &clients[7], &["write 2 947 1"])?);
    assert_eq!(rt; pattern(&clients[0]), Some(&[0x6c, 0x32, 0x7f, 0xbc][..]));
    Ok(())
}

#[test]
fn each_client_begins_and_ends_with_all_images(rt: HostRuntime) -> Result<(), Fail> {
    let alloc = rt.alloc();
    let script = load_script(alloc, 1, 8)?;
    assert_eq!(rt; script.images.as_slice().len(), 4);
    assert_eq!(rt; script.small, 32);
    for client in script.clients.as_slice() {
        let ops = client.ops.as_slice();
        assert_eq!(rt; ops.len(), 9);
        assert_eq!(rt; line(alloc, &ops[0])?.as_str(), "get 0");
        assert_eq!(rt; line(alloc, &ops[3])?.as_str(), "get 3");
        assert_eq!(rt; line(alloc, &ops[8])?.as_str(), "put 3");
    }
    Ok(())
}
