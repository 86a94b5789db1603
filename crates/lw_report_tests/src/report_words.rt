//! Each word of each kind of line, edited in turn.
use lw_base::NoMemory;
use lw_report::{Parsed, read_report};
use std::alloc::Global;
use std::test::Fail;

// Each kind of line with each kind of op, message, answer, reply and result, under the dynamic scheduler.
const EACH_KIND: &str =
    "lightrun report 1\nscheduler dynamic\nreactors 2\nperiod 10\npool 1 1\nimages 2\nimage m 16 4\nimage n-x 32 1\nclients 2\nclient a 4 9\nop get 0\nop put 1\nop write 0 0 1 ffff\nop read 0 0 1\nop flush 1\nop wait 5\nop visit 0\nop each\nop unregister 1\nclient b 32 0\nthread 0 app 0\nhop 1 1\nran 1 0 visit 1 6 0\nran 1 1 cast 1 7\nran 2 0 done\ndid 0 0 began 4\ncalled 1 1\nthread 1 client 0\nran 4 0 visited 6\nran 4 1 casted 7\nran 3 0 reply 3\nran 1 0 putself 0\ndid 0 0 given 0\ndid 0 1 nochannel\ndid 0 2 again 3\ndid 0 3 shut\ndid 0 4 counted\ndid 0 5 waited\ndid 0 6 started\ndid 0 7 already\ndid 0 8 sent\ndid 0 8 deferred\ndid 0 9 closed\ncalled 1 1\nreply 2 ok\nreply 3 bytes abcd\nreply 4 writes 7\nseen 6 0:0 4:1\nseen 6\nseen 7 0 1\nthread 2 client 0\nthread 3 owner 1\nran 1 0 request 2\nran 0 0 stop\nthread 4 owner 0\ndevice 0 1 0 1\ndevice 1 0 4 1\nclock 0 30\nround 1 10\nrow 0 1 7 0\nrow 3 0 0 18446744073709551615\norder 0 1\norder 3 1\nround 2 20\nhome 0 7\nend\n";

// What is done to a word.
#[derive(Copy, Clone)]
enum Edit {
    Missing,
    Doubled,
    SecondSpace,
    SpaceBehind,
    LeadingZero,
    Sign,
    CarriageReturn,
    PastU64,
}

const EDITS: [Edit; 8] = [
    Edit::Missing,
    Edit::Doubled,
    Edit::SecondSpace,
    Edit::SpaceBehind,
    Edit::LeadingZero,
    Edit::Sign,
    Edit::CarriageReturn,
    Edit::PastU64,
];

// The words of a result may be fewer or more, and only a number can be written in other ways.
fn breaks(edit: Edit, line: &str, place: usize, word: &str) -> bool {
    match edit {
        Edit::Missing | Edit::Doubled => place == 0 || !line.starts_with("seen"),
        Edit::SecondSpace | Edit::SpaceBehind => true,
        _ => word.bytes().all(|byte| byte.is_ascii_digit()),
    }
}

// Writes a word with the space or line feed behind it.
fn push_edited(text: &mut String, word: &str, end: char, edit: Edit) -> Result<(), NoMemory> {
    match edit {
        Edit::Missing => {
            if end == '\n' && text.ends_with(' ') {
                text.pop();
            }
        }
        Edit::Doubled => {
            text.push_str(word)?;
            text.push(' ')?;
            text.push_str(word)?;
        }
        Edit::PastU64 => text.push_str("18446744073709551616")?,
        Edit::SecondSpace => push_between(text, " ", word, "")?,
        Edit::SpaceBehind => push_between(text, "", word, " ")?,
        Edit::LeadingZero => push_between(text, "0", word, "")?,
        Edit::Sign => push_between(text, "+", word, "")?,
        Edit::CarriageReturn => push_between(text, "", word, "\r")?,
    }
    if end == '\n' || !matches!(edit, Edit::Missing) {
        text.push(end)?;
    }
    Ok(())
}

fn push_between(text: &mut String, before: &str, word: &str, behind: &str) -> Result<(), NoMemory> {
    text.push_str(before)?;
    text.push_str(word)?;
    text.push_str(behind)?;
    Ok(())
}

// A line with one word edited. Words count from 0.
fn push_line(text: &mut String, line: &str, place: usize, edit: Edit) -> Result<(), NoMemory> {
    for (number, part) in line.split_inclusive(' ').enumerate() {
        if number == place {
            let end = if part.ends_with(' ') { ' ' } else { '\n' };
            push_edited(text, part.trim_end(), end, edit)?;
        } else {
            text.push_str(part)?;
        }
    }
    Ok(())
}

// The text with one word of one line edited. Lines count from 0 too.
fn edited(alloc: Global, at: usize, place: usize, edit: Edit) -> Result<String, NoMemory> {
    let mut text = String::new(alloc);
    for (number, line) in EACH_KIND.split_inclusive('\n').enumerate() {
        if number == at {
            push_line(&mut text, line, place, edit)?;
        } else {
            text.push_str(line)?;
        }
    }
    Ok(text)
}

// Whether each edit of a word makes its line the first bad one.
fn is_bad_at(
    alloc: Global,
    at: usize,
    line: &str,
    place: usize,
    word: &str,
) -> Result<bool, NoMemory> {
    let wanted = (at as u64).saturating_add(1);
    for edit in EDITS {
        if breaks(edit, line, place, word) {
            let text = edited(alloc, at, place, edit)?;
            match read_report(alloc, text.as_bytes())? {
                Parsed::BadLine { line } if line == wanted => {}
                _ => return Ok(false),
            }
        }
    }
    Ok(true)
}

#[test]
fn each_kind_of_line_is_read(rt: HostRuntime) -> Result<(), Fail> {
    let told = matches!(
        read_report(rt.alloc(), EACH_KIND.as_bytes())?,
        Parsed::Told(_)
    );
    assert!(rt; told);
    Ok(())
}

#[test]
fn an_edited_word_makes_its_line_the_bad_one(rt: HostRuntime) -> Result<(), Fail> {
    for (at, line) in EACH_KIND.split_inclusive('\n').enumerate() {
        for (place, part) in line.split_inclusive(' ').enumerate() {
            let bad = is_bad_at(rt.alloc(), at, line, place, part.trim_end())?;
            assert!(rt; bad, "a word of {line}");
        }
    }
    Ok(())
}
