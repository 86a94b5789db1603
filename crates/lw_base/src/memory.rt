//! The outside in memory: for tests, and for callers that have the whole text.
ghost use Rattle.std.specs.Prelude.{◌≡◌, ◌+◌, ◌-◌, ◌<◌, ◌≤◌, ◌==◌, false, true, [], ◌∷◌, ◌++◌, length, take, drop, min, Ok, Err, Some, IfOk, OnOk, OnErr, IfSome, IsErr, Contains, vec_len, vec_capacity};
ghost use Rattle.lw_base.specs.Outside.{Rose, Continues, HasGiven, HasTaken};
ghost use Rattle.lw_base.specs.Memory.{counted, fails_at, list_readings, reading_at, unless_it_fails, unless_nothing};

use crate::names::{Failed, Tick};
use crate::outside::{Clock, Gate, Sink, Source};
use std::cmp;

/// Bytes to read, at most `piece` of them a call.
///
/// The calls whose numbers, from 0, stand in `fails` fail. Once `calls` is the greatest u64 it stays so, and no call
/// fails from then on.
#[derive(Drop)]
pub struct MemSource {
    pub bytes: Vec<u8>,
    /// How many of the bytes were read.
    pub read: usize,
    /// Whether a call has answered the end, or has failed.
    pub ended: bool,
    pub piece: usize,
    pub fails: Vec<u64>,
    pub calls: u64,
    pub faults: u64,
    pub ghost moves: { 1 ≤ piece },
    pub ghost within: { read ≤ length bytes.items },
}

impl MemSource {
    /// Before its first call, with no fault.
    pub fn new(bytes: Vec<u8>, piece: usize, fails: Vec<u64>) -> Self
        requires { 1 ≤ piece }
        ensures bytes { result.bytes ≡ bytes }
        ensures piece { result.piece ≡ piece }
        ensures fails { result.fails ≡ fails }
        ensures fresh { (result.calls ≡ 0) × (result.faults ≡ 0) × (result.read ≡ 0) }
        ensures begins { result.ended ≡ false }
    {
        MemSource {
            bytes,
            read: 0,
            ended: false,
            piece,
            fails,
            calls: 0,
            faults: 0,
        }
    }
}

impl Source for MemSource {
    ghost use Rattle.std.specs.Prelude.{drop, Some};

    ghost left = { λ s. Some (drop s.read s.bytes.items) };

    ghost ended = { λ s. s.ended };

    ghost faults = { λ s. s.faults };

    fn read(&mut self, into: &mut [u8]) -> Result<usize, Failed>
        requires room { 0 < length into.old }
        requires goes_on { self.old.ended ≡ false }
        ensures answer { result ≡ unless_it_fails self.old.fails.items self.old.calls
            (min (min (length self.old.bytes.items - self.old.read) self.old.piece) (length into.old)) }
        ensures count { IfOk result (λ n. n ≤ length into.new) }
        ensures ended { IfOk result (λ n. self.new.ended ≡ (n == 0)) }
        ensures next { IfOk result (λ n. HasGiven (Some (drop self.old.read self.old.bytes.items)) (take n into.new)
            (Some (drop self.new.read self.new.bytes.items))) }
        ensures end { IfOk result (λ n. n ≡ 0 → drop self.old.read self.old.bytes.items ≡ []) }
        ensures sound { OnOk result (self.new.faults ≡ self.old.faults) }
        ensures steady { self.old.faults ≤ self.new.faults }
        ensures failed { OnErr result (Rose self.old.faults self.new.faults
            × (drop self.new.read self.new.bytes.items ≡ drop self.old.read self.old.bytes.items)) }
        ensures stops { OnErr result (self.new.ended ≡ true) }
        ensures moved { IfOk result (λ n. self.new.read ≡ self.old.read + n) }
        ensures unmoved { OnErr result ((self.new.read ≡ self.old.read) × (into.new ≡ into.old)) }
        ensures fault { OnErr result (self.new.faults ≡ counted self.old.faults) }
        ensures call { self.new.calls ≡ counted self.old.calls }
        ensures kept { (self.new.bytes ≡ self.old.bytes) × (self.new.piece ≡ self.old.piece) × (self.new.fails ≡ self.old.fails) }
    {
        if fails_now(&mut self.calls, &self.fails) {
            self.ended = true;
            self.faults = self.faults.saturating_add(1);
            return Err(Failed);
        }
        let count = copy_front(&self.bytes[self.read..], into, self.piece);
        self.read += count;
        self.ended = count == 0;
        Ok(count)
    }
}

// Copies the front of a text, at most `most` bytes, to the front of a buffer.
fn copy_front(text: &[u8], into: &mut [u8], most: usize) -> usize
    ensures count { result ≡ min (min (length text.now) most) (length into.old) }
    ensures front { take result into.new ≡ take result text.now }
{
    let count = cmp::min(cmp::min(text.len(), most), into.len());
    into[..count].copy_from_slice(&text[..count]);
    count
}

// Whether the call that begins now fails. It counts the call.
fn fails_now(calls: &mut u64, fails: &[u64]) -> bool
    ensures fails { result ≡ fails_at fails.now calls.old }
    ensures counted { calls.new ≡ counted calls.old }
{
    let call = *calls;
    if call == u64::MAX {
        return false;
    }
    *calls = call + 1;
    fails.contains(&call)
}

/// What was written, at most `piece` bytes a call and no more than `bytes` has room for.
///
/// It takes no memory: a call that finds no room fails. The calls whose numbers, from 0, stand in `fails` fail too.
/// Once `calls` is the greatest u64 it stays so, and `fails` makes no call fail from then on.
#[derive(Drop)]
pub struct MemSink {
    pub bytes: Vec<u8>,
    pub piece: usize,
    pub fails: Vec<u64>,
    pub calls: u64,
    pub faults: u64,
    pub ghost moves: { 1 ≤ piece },
}

impl MemSink {
    /// Before its first call, with no fault.
    pub fn new(bytes: Vec<u8>, piece: usize, fails: Vec<u64>) -> Self
        requires { 1 ≤ piece }
        ensures bytes { result.bytes ≡ bytes }
        ensures piece { result.piece ≡ piece }
        ensures fails { result.fails ≡ fails }
        ensures fresh { (result.calls ≡ 0) × (result.faults ≡ 0) }
    {
        MemSink {
            bytes,
            piece,
            fails,
            calls: 0,
            faults: 0,
        }
    }
}

impl Sink for MemSink {
    ghost use Rattle.std.specs.Prelude.{Some};

    ghost holds = { λ s. Some s.bytes.items };

    ghost faults = { λ s. s.faults };

    fn write(&mut self, piece: &[u8]) -> Result<usize, Failed>
        requires { 0 < length piece.now }
        ensures answer { result ≡ unless_nothing self.old.fails.items self.old.calls
            (min (min (vec_capacity self.old.bytes - vec_len self.old.bytes) self.old.piece) (length piece.now)) }
        ensures count { IfOk result (λ n. (1 ≤ n) × (n ≤ length piece.now)) }
        ensures appended { IfOk result (λ n. HasTaken (Some self.old.bytes.items) (take n piece.now) (Some self.new.bytes.items)) }
        ensures sound { OnOk result (self.new.faults ≡ self.old.faults) }
        ensures steady { self.old.faults ≤ self.new.faults }
        ensures failed { OnErr result (Rose self.old.faults self.new.faults × (self.new.bytes.items ≡ self.old.bytes.items)) }
        ensures unmoved { OnErr result (self.new.bytes ≡ self.old.bytes) }
        ensures fault { OnErr result (self.new.faults ≡ counted self.old.faults) }
        ensures call { self.new.calls ≡ counted self.old.calls }
        ensures kept { (self.new.piece ≡ self.old.piece) × (self.new.fails ≡ self.old.fails) }
        ensures room { vec_capacity self.old.bytes ≤ vec_capacity self.new.bytes }
    {
        let fails = fails_now(&mut self.calls, &self.fails);
        let room = self.bytes.capacity() - self.bytes.len();
        let count = cmp::min(cmp::min(room, self.piece), piece.len());
        if fails || count == 0 {
            self.faults = self.faults.saturating_add(1);
            return Err(Failed);
        }
        append(&mut self.bytes, &piece[..count]);
        Ok(count)
    }
}

// Appends bytes that there is room for.
fn append(bytes: &mut Vec<u8>, piece: &[u8])
    requires { vec_len bytes.old + length piece.now ≤ vec_capacity bytes.old }
    ensures appended { bytes.new.items ≡ bytes.old.items ++ piece.now }
    ensures room { vec_capacity bytes.old ≤ vec_capacity bytes.new }
{
    if bytes.extend_from_slice(piece).is_err() {
        unreachable!()
    }
}

/// A clock that reads `list` from its front, then its last reading over and over, and 0 where the list is empty.
///
/// It tells its readings as long as `calls` is below the greatest u64, where `calls` stands still.
#[derive(Drop)]
pub struct ListClock {
    pub list: Vec<u64>,
    pub calls: u64,
}

impl ListClock {
    pub fn new(list: Vec<u64>) -> Self
        ensures { result ≡ record { list = list; calls = 0 } }
    {
        ListClock { list, calls: 0 }
    }
}

impl Clock for ListClock {
    ghost use Rattle.lw_base.specs.Memory.{list_readings};

    ghost readings = { λ c. list_readings c.list.items c.calls };

    fn now(&mut self) -> Tick
        ensures continues { Continues (list_readings self.old.list.items self.old.calls) result
            (list_readings self.new.list.items self.new.calls) }
        ensures reading { result ≡ reading_at self.old.list.items self.old.calls }
        ensures call { self.new.calls ≡ counted self.old.calls }
        ensures kept { self.new.list ≡ self.old.list }
    {
        let call = self.calls;
        self.calls = call.saturating_add(1);
        reading(self.list.as_slice(), call)
    }
}

fn reading(list: &[u64], call: u64) -> u64
    ensures { result ≡ reading_at list.now call }
{
    let last = list.len().saturating_sub(1) as u64;
    let place = cmp::min(call, last) as usize;
    list.get(place).copied().unwrap_or(0)
}

/// A gate that returns at once.
#[derive(Copy, Clone)]
pub struct OpenGate;

impl Gate for OpenGate {
    fn turn(&self, _reactor: u32, _turn: u64) {}
}
