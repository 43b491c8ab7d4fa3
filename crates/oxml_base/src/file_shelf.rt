ghost use Rattle.std.specs.Prelude.{◌≡◌, ◌+◌, ◌≤◌, ◌++◌, [], false, None, List, length, take, IfOk, OnOk, OnErr, IfErr, string_bytes};
ghost use Rattle.oxml_base.specs.Files.{file_view, Grows, Takes};
ghost use Rattle.oxml_base.specs.Outside.{ShelfFails, SameHeld, Loads, LoadRefused, SameBut, Saves, SaveRefused};

use crate::errors::{Failed, LoadErr, SaveErr};
use crate::last_fault::LastFault;
use crate::outside::{Shelf, ShelfCall};
use std::alloc::Global;
use std::fs;
use std::io::{ErrorKind, Read, Write};
use std::rt::Files;

/// How many bytes one call asks a file for.
const CHUNK: usize = 8192;

/// The files of the system. It tells no bytes, and counts each call that the system refuses.
#[derive(Drop)]
pub struct FileShelf<'a, R: Files> {
    files: &'a R,
    alloc: Global,
    faults: u64,
    last_fault: LastFault,
}

impl<'a, R: Files> FileShelf<'a, R> {
    /// The files that the runtime reaches.
    pub fn new(alloc: Global, files: &'a R) -> FileShelf<'a, R>
        ensures faults { result.faults ≡ 0 }
        ensures call { result.last_fault.call ≡ ShelfCall.Load }
        ensures name { string_bytes result.last_fault.name ≡ [] }
    {
        FileShelf {
            files,
            alloc,
            faults: 0,
            last_fault: LastFault::none(alloc),
        }
    }

    fn note(&mut self, fault: LastFault)
        ensures { ShelfFails (file_view self.old.faults self.old.last_fault) (file_view self.new.faults self.new.last_fault) fault.call (string_bytes fault.name) }
    {
        self.faults = self.faults.saturating_add(1);
        self.last_fault = fault;
    }
}

impl<'a, R: Files> Shelf for FileShelf<'a, R> {
    ghost shelf = { λ s. file_view s.faults s.last_fault };

    fn load(&mut self, name: &str, room: &mut Vec<u8>, most: u64) -> Result<(), LoadErr> {
        let Ok(fault) = LastFault::new(self.alloc, ShelfCall::Load, name) else {
            return Err(LoadErr::NoMemory);
        };
        let start = room.len();
        match read_file(self.files, name, room, most) {
            Ok(()) => Ok(()),
            Err(refused) => {
                room.truncate(start);
                if let LoadErr::Failed = refused {
                    self.note(fault);
                }
                Err(refused)
            }
        }
    }

    fn save(&mut self, name: &str, bytes: &[u8]) -> Result<(), SaveErr> {
        let Ok(fault) = LastFault::new(self.alloc, ShelfCall::Save, name) else {
            return Err(SaveErr::NoMemory);
        };
        match write_file(self.files, name, bytes) {
            Ok(()) => Ok(()),
            Err(Failed) => {
                self.note(fault);
                Err(SaveErr::Failed)
            }
        }
    }
}

/// Appends all bytes of a file, until its end or until more than `most` came.
fn read_file<R: Files>(files: &R, name: &str, room: &mut Vec<u8>, most: u64) -> Result<(), LoadErr>
    ensures grows { Grows room.old.items room.new.items }
    ensures within { OnOk result (length room.new.items ≤ length room.old.items + most) }
{
    let Ok(mut file) = fs::open(files, name) else {
        return Err(LoadErr::Failed);
    };
    let mut left = most;
    for _ in 0..u64::MAX {
        match read_some(&mut file, room, left)? {
            Progress::Some(n) => left -= n,
            Progress::End => return Ok(()),
            Progress::TooLong => return Err(LoadErr::TooLong),
        }
    }
    Err(LoadErr::Failed)
}

/// What one call of `read` gave.
#[derive(Drop)]
enum Progress {
    /// So many bytes, none where a signal came first.
    Some(u64),
    End,
    /// One more than the bytes that were left.
    TooLong,
}

/// Appends what one call of `read` gives, of which it asks for at most one more than `left`.
fn read_some<F: Read>(file: &mut F, room: &mut Vec<u8>, left: u64) -> Result<Progress, LoadErr>
    ensures grows { Grows room.old.items room.new.items }
    ensures taken { IfOk result (λ progress. Takes progress (length room.old.items) (length room.new.items) left) }
{
    let mut chunk = [0u8; CHUNK];
    let most = usize::try_from(left.saturating_add(1))
        .unwrap_or(CHUNK)
        .min(CHUNK);
    match file.read(&mut chunk[..most]) {
        Ok(0) => Ok(Progress::End),
        Ok(n) => match room.extend_from_slice(&chunk[..n]) {
            Err(_) => Err(LoadErr::NoMemory),
            Ok(()) if n as u64 > left => Ok(Progress::TooLong),
            Ok(()) => Ok(Progress::Some(n as u64)),
        },
        Err(error) if error.kind() == ErrorKind::Interrupted => Ok(Progress::Some(0)),
        Err(_) => Err(LoadErr::Failed),
    }
}

/// Makes the file hold the bytes.
fn write_file<R: Files>(files: &R, name: &str, bytes: &[u8]) -> Result<(), Failed> {
    let Ok(mut file) = fs::create(files, name) else {
        return Err(Failed);
    };
    let mut rest = bytes;
    for _ in 0..u64::MAX {
        if rest.is_empty() {
            return Ok(());
        }
        match file.write(rest) {
            Ok(0) => return Err(Failed),
            Ok(n) => rest = &rest[n..],
            Err(error) if error.kind() == ErrorKind::Interrupted => {}
            Err(_) => return Err(Failed),
        }
    }
    Err(Failed)
}
