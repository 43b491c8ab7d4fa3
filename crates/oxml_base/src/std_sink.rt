ghost use Rattle.std.specs.Prelude.{◌≡◌, false, []};
ghost use Rattle.oxml_base.specs.Outside.{SinkView};

use crate::errors::Failed;
use crate::outside::Sink;
use std::io::ErrorKind;

/// A channel of the process, as `rt.stdout()`. It tells no bytes, and counts each call that the
/// system refuses.
#[derive(Drop)]
pub struct StdSink<C: Print + Drop> {
    channel: C,
    faults: u64,
}

impl<C: Print + Drop> StdSink<C> {
    /// The channel of the runtime, which takes its writes.
    pub fn new(channel: C) -> StdSink<C>
        ensures { result.faults ≡ 0 }
    {
        StdSink { channel, faults: 0 }
    }
}

impl<C: Print + Drop> Sink for StdSink<C> {
    ghost sink = { λ s. record { tells = false; written = []; faults = s.faults } };

    fn put(&mut self, piece: &[u8]) -> Result<(), Failed> {
        match write_whole(&self.channel, piece) {
            Ok(()) => Ok(()),
            Err(Failed) => {
                self.faults = self.faults.saturating_add(1);
                Err(Failed)
            }
        }
    }
}

/// Writes the whole piece. A write that takes nothing of the rest is refused too.
fn write_whole<C: Print>(channel: &C, piece: &[u8]) -> Result<(), Failed> {
    let mut rest = piece;
    for _ in 0..u64::MAX {
        if rest.is_empty() {
            return Ok(());
        }
        match channel.write_some(rest) {
            Ok(0) => return Err(Failed),
            Ok(n) => rest = &rest[n..],
            Err(error) if error.kind() == ErrorKind::Interrupted => {}
            Err(_) => return Err(Failed),
        }
    }
    Err(Failed)
}
