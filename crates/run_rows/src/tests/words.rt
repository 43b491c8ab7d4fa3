//! What programs take, in words of memory: of blocks, of local blocks, and of the calls.

use super::evaluation::evaluate;
use super::programs::{COUNT, DEEP, EVAL, HANDED, INCREMENT, LOOP, REVERSE};
use ml_meaning::Event;
use std::alloc::{AllocError, Global};
use std::process::Abort;
use std::test::Fail;

/// What a trace takes so far, and the most that it took.
#[derive(Drop)]
struct Taken {
    /// The words of the blocks that were made.
    made: u64,
    /// The words of the blocks that were overwritten.
    over: u64,
    /// The words of the blocks that stand, were each block local to the region that it is made in.
    local: u64,
    most_local: u64,
    /// What `local` was where each region began that has not ended.
    marks: Vec<u64>,
    /// The weights of the calls that run.
    calls: u64,
    most_calls: u64,
}

impl Taken {
    fn make(&mut self, words: u64) {
        self.made = self.made.saturating_add(words);
        self.local = self.local.saturating_add(words);
        self.most_local = self.most_local.max(self.local);
    }

    fn call(&mut self, old: u64, new: u64) {
        self.calls = self.calls.saturating_sub(old).saturating_add(new);
        self.most_calls = self.most_calls.max(self.calls);
    }

    fn take(&mut self, event: Event) -> Result<(), AllocError> {
        match event {
            Event::Put { .. } => {}
            Event::Made { node: _, words } => self.make(words),
            Event::Over { node: _, words } => self.over = self.over.saturating_add(words),
            Event::Open => self.marks.push(self.local)?,
            Event::Close => {
                if let Some(mark) = self.marks.pop() {
                    self.local = mark;
                }
            }
            Event::Enter { weight } => self.call(0, weight),
            Event::Leave { weight } => self.call(weight, 0),
            Event::Tail { old, new } => self.call(old, new),
        }
        Ok(())
    }
}

/// What a program takes where it has so much fuel.
fn words_taken(alloc: Global, source: &str, fuel: u64) -> Result<Taken, Fail> {
    let mut taken = Taken {
        made: 0,
        over: 0,
        local: 0,
        most_local: 0,
        marks: Vec::new(alloc),
        calls: 0,
        most_calls: 0,
    };
    let trace = evaluate(alloc, source, fuel)?;
    for event in trace.events.as_slice() {
        taken.take(*event)?;
    }
    Ok(taken)
}

/// A source, the fuel that it needs to end, the words of the blocks that it makes, of those that it
/// overwrites, the most words of local blocks, and the greatest weight of the calls.
type Case = (&'static str, u64, u64, u64, u64, u64);

/// A partial application of one argument has 3 words, a tuple of two parts 3, a cell of a list 3, a
/// constructor with one field 2, a text of two bytes 2. A function or item of k nodes weighs 4k + 64.
const SMALL: [Case; 4] = [
    (INCREMENT, 1, 3, 0, 3, 92 + 84),
    // Three calls of a function of 30 nodes stand in one another. The tree has 12 words, and stands
    // until the text of its value is printed.
    (EVAL, 3, 14, 0, 14, 152 + 3 * 184),
    // The region of the call is closed before the pair is made.
    (HANDED, 1, 3, 0, 3, 124 + 88),
    // Each cell is made once and overwritten once.
    (REVERSE, 1_001, 3_000, 3_000, 3, 132 + 1_001 * 120),
];

const LARGE: [Case; 3] = [
    // The tuple of each call is gone before the next, and so is the call.
    (LOOP, 100_001, 300_000, 0, 3, 80 + 164),
    (COUNT, 100_001, 0, 0, 0, 96 + 132),
    // No call is in tail position, so all stand in one another.
    (DEEP, 100_001, 0, 0, 0, 108 + 100_001 * 120),
];

/// Whether each program of a table takes its words.
fn check(rt: &impl Abort, alloc: Global, table: &[Case]) -> Result<(), Fail> {
    for (source, fuel, made, over, most_local, most_calls) in table {
        let taken = words_taken(alloc, source, *fuel)?;
        let blocks = (taken.made, taken.over, taken.most_local);
        assert_eq!(rt; blocks, (*made, *over, *most_local), "at {source:?}");
        assert_eq!(rt; taken.most_calls, *most_calls, "at {source:?}");
    }
    Ok(())
}

#[test]
fn words(rt: HostRuntime) -> Result<(), Fail> {
    check(&rt, rt.alloc(), &SMALL)
}

#[test]
fn words_of_long_runs(rt: HostRuntime) -> Result<(), Fail> {
    check(&rt, rt.alloc(), &LARGE)
}
