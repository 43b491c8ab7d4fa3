ghost use Rattle.std.specs.Prelude.{◌≡◌, ◌+◌, ◌-◌, ◌^◌, ◌<◌, ◌≤◌, ◌++◌, [], min, false, take, length, OnOk, OnErr, IfOk, IsTrue, vec_len};
ghost use Rattle.std.specs.Vec.{vec_capacity};
ghost use Rattle.oxml_base.specs.Outside.{Puts, PutFails, Rose};

use crate::errors::{Failed, NoMemory};
use crate::outside::Sink;
use std::alloc::Global;

/// A sink in memory, which tells what it took and fails the calls that it is told to fail.
#[derive(Debug, Drop)]
pub struct MemSink {
    room: u64,
    taken: Vec<u8>,
    fail: Vec<u64>,
    calls: u64,
    faults: u64,
    ghost within: { vec_len taken ≤ room },
    // The memory for the room is there, so that no put asks for any.
    ghost reserved: { room ≤ vec_capacity taken },
}

impl MemSink {
    ghost use Rattle.oxml_base.specs.MemorySink.{IsNewSink, put_fails};

    /// A sink that takes at most `room` bytes, whose memory it takes at once. Its puts are numbered
    /// from 0, and those whose numbers stand in `fail` fail.
    pub fn new(alloc: Global, room: u64, fail: Vec<u64>) -> Result<MemSink, NoMemory>
        ensures { IfOk result (λ sink. IsNewSink sink room fail.items) }
    {
        let taken = Vec::with_capacity(alloc, room as usize)?;
        Ok(MemSink {
            room,
            taken,
            fail,
            calls: 0,
            faults: 0,
        })
    }

    /// The bytes that it took. It takes no memory.
    pub fn bytes(&self) -> &[u8]
        ensures { result.now ≡ self.now.taken.items }
    {
        self.taken.as_slice()
    }

    /// Counts a put, and says whether it is to fail.
    fn next_put_fails(&mut self) -> bool
        ensures fails { result ≡ put_fails self.old }
        ensures calls { self.new.calls ≡ min (self.old.calls + 1) (2 ^ 64 - 1) }
        ensures taken { self.new.taken.items ≡ self.old.taken.items }
        ensures room { self.new.room ≡ self.old.room }
        ensures fail { self.new.fail ≡ self.old.fail }
        ensures faults { self.new.faults ≡ self.old.faults }
    {
        let fails = self.fail.contains(&self.calls);
        self.calls = self.calls.saturating_add(1);
        fails
    }

    /// Appends a piece that fits.
    fn append(&mut self, piece: &[u8])
        requires { length self.old.taken.items + length piece.now ≤ self.old.room }
        ensures taken { self.new.taken.items ≡ self.old.taken.items ++ piece.now }
        ensures room { self.new.room ≡ self.old.room }
        ensures fail { self.new.fail ≡ self.old.fail }
        ensures calls { self.new.calls ≡ self.old.calls }
        ensures faults { self.new.faults ≡ self.old.faults }
    {
        self.taken.extend_from_slice(piece).unwrap();
    }

    /// Notes that a put failed.
    fn note(&mut self)
        ensures rose { Rose self.old.faults self.new.faults }
        ensures taken { self.new.taken.items ≡ self.old.taken.items }
        ensures room { self.new.room ≡ self.old.room }
        ensures fail { self.new.fail ≡ self.old.fail }
        ensures calls { self.new.calls ≡ self.old.calls }
    {
        self.faults = self.faults.saturating_add(1);
    }
}

impl Sink for MemSink {
    ghost use Rattle.oxml_base.specs.MemorySink.{sink_view, put_fails, part_taken, CountsPut, MayFailPut};

    ghost sink = { sink_view };

    fn put(&mut self, piece: &[u8]) -> Result<(), Failed>
        ensures ok { OnOk result (Puts (sink_view self.old) (sink_view self.new) piece.now) }
        ensures err { OnErr result (PutFails (sink_view self.old) (sink_view self.new) piece.now) }
        // A put on the list fails and takes nothing, and one past the room takes what fits and fails.
        ensures listed { OnOk result (put_fails self.old ≡ false) }
        ensures failed { OnErr result (MayFailPut self.old piece.now) }
        ensures part { OnErr result (self.new.taken.items ≡ self.old.taken.items ++ part_taken self.old piece.now) }
        ensures rest { CountsPut self.old self.new }
    {
        if self.next_put_fails() {
            self.note();
            return Err(Failed);
        }
        let left = self.room as usize - self.taken.len();
        if left < piece.len() {
            self.append(&piece[..left]);
            self.note();
            return Err(Failed);
        }
        self.append(piece);
        Ok(())
    }
}
