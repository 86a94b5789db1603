//! The top call over the outside in memory.
ghost use Rattle.std.specs.Prelude.{◌≡◌, ◌≤◌, vec_len, IfOk};

use lw_base::{ListClock, MemSink, MemSource, NoMemory, OpenGate};
use lw_program::{Finish, lightrun};
use std::alloc::Global;
use std::sync::Wait;

pub const FIRST: &str =
    "{\"version\":1,\"images\":[{\"name\":\"m\",\"block\":16,\"blocks\":4}],\"clients\":[{\"name\":\"a\",\"depth\":4,\"ops\":[[\"get\",\"m\"],[\"write\",\"m\",0,1,\"ab\"],[\"read\",\"m\",0,1],[\"put\",\"m\"]]}],\"pool\":{\"small\":4,\"large\":1}}";

pub const REPORT: &str =
    "lightrun report 1\nscheduler static\nreactors 1\nperiod 1000000\npool 4 1\nimages 1\nimage m 16 4\nclients 1\nclient a 4 4\nop get 0\nop write 0 0 1 ab\nop read 0 0 1\nop put 0\nthread 0 app 0\nran 1 0 done\ndid 1 0 began 1\ncalled 1 0\nthread 1 client 0\nran 2 0 reply 1\nran 2 1 reply 2\nran 1 0 putself 0\ndid 0 0 given 0\ndid 0 1 sent\ndid 0 2 sent\ndid 2 3 deferred\ndid 2 4 closed\nreply 1 ok\nreply 2 bytes abababababababababababababababab\nthread 2 owner 0\nran 1 0 request 1\nran 1 1 request 2\nran 0 0 stop\ndevice 0 1 0 1\nhome 4 1\nend\n";

// An end, and what the sink took.
#[derive(Drop)]
pub struct Ended {
    pub finish: Finish,
    pub written: Vec<u8>,
    /// How often the source was called.
    pub reads: u64,
}

fn clocks(alloc: Global) -> Result<Vec<ListClock>, NoMemory>
    ensures { IfOk result (λ v. vec_len v ≡ 16) }
{
    let mut clocks = Vec::new(alloc);
    for _made in 0..16u32 {
        clocks.push(ListClock::new(Vec::new(alloc)))?;
    }
    Ok(clocks)
}

// The words of a line with one space between two.
pub fn words(alloc: Global, line: &str) -> Result<Vec<String>, NoMemory> {
    let mut words = Vec::new(alloc);
    for word in line.split(' ') {
        words.push(String::from_str(alloc, word)?)?;
    }
    Ok(words)
}

// Runs the words over a source and a sink that move pieces and fail at one call each, or at none.
pub fn end_of<R: Wait>(
    rt: &R,
    alloc: Global,
    words: &[String],
    bytes: Vec<u8>,
    piece: usize,
    fails: (u64, u64),
) -> Result<Ended, NoMemory>
    requires { 1 ≤ piece }
{
    let mut source = MemSource::new(bytes, piece, vec![in alloc; fails.0]?);
    let room = Vec::with_capacity(alloc, 131_072)?;
    let mut sink = MemSink::new(room, piece, vec![in alloc; fails.1]?);
    let clocks = clocks(alloc)?;
    let finish = lightrun(rt, alloc, words, &mut source, &mut sink, clocks, &OpenGate);
    Ok(Ended {
        finish,
        written: sink.bytes,
        reads: source.calls,
    })
}

// The same for `run` on a text, with no fault.
pub fn run_of<R: Wait>(rt: &R, alloc: Global, text: &str, piece: usize) -> Result<Ended, NoMemory>
    requires { 1 ≤ piece }
{
    let bytes = String::from_str(alloc, text)?.into_bytes();
    end_of(
        rt,
        alloc,
        words(alloc, "run")?.as_slice(),
        bytes,
        piece,
        (u64::MAX, u64::MAX),
    )
}
