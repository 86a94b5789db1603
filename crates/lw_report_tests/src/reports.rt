use lw_base::NoMemory;
use lw_report::{Parsed, read_report};
use lw_report_print::print;
use std::alloc::Global;
use std::test::Fail;

const WITHOUT_OPS: &str =
    "lightrun report 1\nscheduler static\nreactors 1\nperiod 1000000\npool 1 1\nimages 1\nimage m 16 1\nclients 1\nclient a 1 0\nthread 0 app 0\nran 1 0 done\ndid 1 0 began 0\ncalled 1 0\nthread 1 client 0\ndid 0 0 closed\nthread 2 owner 0\nran 0 0 stop\ndevice 0 0 0 1\nhome 1 1\nend\n";

const FOUR_OPS: &str =
    "lightrun report 1\nscheduler static\nreactors 1\nperiod 1000000\npool 4 1\nimages 1\nimage m 16 4\nclients 1\nclient a 4 4\nop get 0\nop write 0 0 1 ab\nop read 0 0 1\nop put 0\nthread 0 app 0\nran 1 0 done\ndid 1 0 began 1\ncalled 1 0\nthread 1 client 0\nran 2 0 reply 1\nran 2 1 reply 2\nran 1 0 putself 0\ndid 0 0 given 0\ndid 0 1 sent\ndid 0 2 sent\ndid 2 3 deferred\ndid 2 4 closed\nreply 1 ok\nreply 2 bytes abababababababababababababababab\nthread 2 owner 0\nran 1 0 request 1\nran 1 1 request 2\nran 0 0 stop\ndevice 0 1 0 1\nhome 4 1\nend\n";

// Two images, two clients, each op and each kind of line.
const ALL_KINDS: &str =
    "lightrun report 1\nscheduler static\nreactors 2\nperiod 1\npool 1 1\nimages 2\nimage m 16 4\nimage n-0 32 1\nclients 2\nclient a 4 9\nop get 0\nop put 1\nop write 0 0 1 00ff\nop read 0 0 1\nop flush 1\nop wait 5\nop visit 0\nop each\nop unregister 1\nclient b 32 0\nthread 0 app 0\nhop 1 1\nran 1 0 visit 1 6 0\nran 1 1 cast 1 7\nthread 1 client 1\nran 4 0 visited 6\nran 4 1 casted 7\ndid 0 0 given 0\ndid 0 1 nochannel\ndid 0 2 again 3\ndid 0 3 shut\ndid 0 4 counted\ndid 0 5 waited\ndid 0 6 started\ndid 0 7 already\ncalled 1 1\nreply 2 ok\nreply 3 bytes 00\nreply 4 writes 18446744073709551615\nseen 6\nseen 6 0:0 4294967295:18446744073709551615\nseen 7 0 1\nthread 2 client 0\nthread 3 owner 1\nthread 4 owner 0\ndevice 0 1 0 1\ndevice 1 0 4294967295 4294967295\nhome 0 7\nend\n";

// The first bad line of a text, or 0 where it is a record's.
fn bad_line(alloc: Global, text: &str) -> Result<u64, NoMemory> {
    match read_report(alloc, text.as_bytes())? {
        Parsed::Told(_) => Ok(0),
        Parsed::BadLine { line } => Ok(line),
    }
}

// Whether a text is that of the record that is read from it.
fn comes_back(alloc: Global, text: &str) -> Result<bool, NoMemory> {
    match read_report(alloc, text.as_bytes())? {
        Parsed::Told(record) => Ok(print(alloc, &record)?.as_slice() == text.as_bytes()),
        Parsed::BadLine { line: _ } => Ok(false),
    }
}

#[test]
fn texts_come_back(rt: HostRuntime) -> Result<(), Fail> {
    let alloc = rt.alloc();
    for text in [WITHOUT_OPS, FOUR_OPS, ALL_KINDS] {
        assert!(rt; comes_back(alloc, text)?);
    }
    Ok(())
}

#[test]
fn a_text_is_cut_at_each_line(rt: HostRuntime) -> Result<(), Fail> {
    let alloc = rt.alloc();
    let mut line = 1;
    for (place, byte) in ALL_KINDS.as_bytes().iter().enumerate() {
        if *byte == b'\n' {
            assert!(rt; bad_line(alloc, &ALL_KINDS[..place])? == line);
            line = line.saturating_add(1);
        }
    }
    Ok(())
}

#[test]
fn an_edited_line_is_the_bad_one(rt: HostRuntime) -> Result<(), Fail> {
    let alloc = rt.alloc();
    for (old, new, line) in [
        ("report 1", "report 2", 1),
        ("static", "dynamic", 48),
        ("static", "static ", 2),
        ("reactors 2", "reactors 0", 3),
        ("reactors 2", "reactors 17", 3),
        ("period 1\n", "period 1\r\n", 4),
        ("pool 1 1", "pool 4294967296 1", 5),
        ("pool 1 1", "pool 1  1", 5),
        ("images 2", "images 1", 8),
        ("images 2", "images 3", 9),
        ("client a 4 9", "client a 4 8", 19),
        ("client a 4 9", "client a 4 10", 20),
        ("clients 2", "clients 1", 20),
        ("clients 2", "clients 3", 21),
        ("image m 16 4", "image  m 16 4", 7),
        ("image m 16 4", "image m 016 4", 7),
        ("op write 0 0 1 00ff", "op write 0 0 1 00FF", 13),
        ("op each", "op each 0", 18),
        ("op wait 5", "op wait 18446744073709551616", 16),
        ("hop 1 1", "hop 4294967296 1", 22),
        ("hop 1 1", "hop 1 +1", 22),
        ("ran 1 0 visit 1 6 0", "ran 1 0 visit 1 6", 23),
        ("did 0 2 again 3", "did 0 2 again 18446744073709551616", 30),
        ("called 1 1", "called 1 2", 36),
        ("reply 3 bytes 00", "reply 3 bytes 0", 38),
        ("reply 3 bytes 00", "reply 3 bytes", 38),
        ("reply 3 bytes 00", "reply 3 bytes 0A", 38),
        ("seen 7 0 1", "seen 7 0 1:2", 42),
        ("thread 2 client", "thread 3 client", 43),
        ("thread 3 owner 1", "seen 7", 45),
        ("thread 4 owner 0", "reply 0 ok", 45),
        ("thread 3 owner", "thread 3 client", 44),
        ("home 0 7", "device 2 0 0 0", 48),
        ("end\n", "end\nend\n", 50),
    ] {
        let text = ALL_KINDS.replacen(alloc, old, new, 1)?;
        assert_eq!(rt; bad_line(alloc, text.as_str())?, line);
    }
    Ok(())
}

#[test]
fn a_script_that_breaks_a_rule_makes_the_line_behind_it_bad(rt: HostRuntime) -> Result<(), Fail> {
    let alloc = rt.alloc();
    for (old, new) in [
        ("pool 1 1", "pool 0 1"),
        ("image m 16 4", "image m 17 4"),
        ("image m 16 4", "image m 16 0"),
        ("op write 0 0 1 00ff", "op write 0 0 0 00ff"),
        ("image m 16 4", "image M 16 4"),
        ("client b 32 0", "client b 33 0"),
        ("client b 32 0", "client a 32 0"),
        ("op get 0", "op get 2"),
        ("op wait 5", "op wait 0"),
        ("op read 0 0 1", "op read 0 4 1"),
        ("op write 0 0 1 00ff", "op write 0 0 1 zz"),
    ] {
        let text = ALL_KINDS.replacen(alloc, old, new, 1)?;
        assert_eq!(rt; bad_line(alloc, text.as_str())?, 21);
    }
    Ok(())
}
