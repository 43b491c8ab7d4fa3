//! A trace in the words of the table.

use super::evaluation::Trace;
use ml_meaning::{Ending, Event};
use std::alloc::{AllocError, Global};
use std::fmt::Write;

/// The channel of a byte that is written.
fn channel_of(event: Event) -> Option<u8> {
    match event {
        Event::Put { channel, byte: _ } => Some(channel),
        _ => None,
    }
}

/// Bytes that are written one after the other on a channel stand in quotes.
fn quotes(out: &mut String, before: Option<u8>, now: Option<u8>) -> Result<(), AllocError> {
    if before == now {
        return Ok(());
    }
    if before.is_some() {
        write!(out, "\" ")?;
    }
    match now {
        Some(2) => write!(out, "!\""),
        Some(_) => write!(out, "\""),
        None => Ok(()),
    }
}

fn show(out: &mut String, event: Event) -> Result<(), AllocError> {
    match event {
        Event::Put {
            channel: _,
            byte: b'\n',
        } => write!(out, "|"),
        Event::Put { channel: _, byte } => write!(out, "{}", byte as char),
        Event::Made {
            node: Some(_),
            words,
        } => write!(out, "M{words} "),
        Event::Made { node: None, words } => write!(out, "m{words} "),
        Event::Over { node: _, words } => write!(out, "V{words} "),
        Event::Open => write!(out, "( "),
        Event::Close => write!(out, ") "),
        Event::Enter { weight } => write!(out, "E{weight} "),
        Event::Leave { weight } => write!(out, "L{weight} "),
        Event::Tail { old, new } => write!(out, "T{old}>{new} "),
    }
}

/// The events from a place on and the end.
pub fn shown(alloc: Global, trace: &Trace, from: usize) -> Result<String, AllocError> {
    let mut out = String::new(alloc);
    let mut before = None;
    for event in trace.events.as_slice().iter().skip(from) {
        let now = channel_of(*event);
        quotes(&mut out, before, now)?;
        show(&mut out, *event)?;
        before = now;
    }
    quotes(&mut out, before, None)?;
    match trace.ending {
        Ending::Exit(status) => write!(out, "={status}")?,
        Ending::More => write!(out, "more")?,
    }
    Ok(out)
}
