ghost use Rattle.std.specs.Prelude.{◌≡◌, ◌≢◌, ◌+◌, ◌-◌, ◌^◌, ◌<◌, ◌≤◌, ◌++◌, length, min, true, false, Some, None, [], List, ℕ, IfOk, OnOk, OnErr, IfErr, IsErrOf, IsNone, IsTrue, option_map, string_bytes};
ghost use Rattle.std.specs.BTreeMap.{get_by_text};
ghost use Rattle.std.specs.Option.{option_copied};
ghost use Rattle.oxml_base.specs.Memory.{held_in, shelf_view, shelf_call_fails, IsFailedLoad, IsFailedSave, MayFailLoad, CountsCall};
ghost use Rattle.oxml_base.specs.Outside.{ShelfFails, SameHeld, Loads, LoadRefused, SameBut, Saves, SaveRefused};

use crate::errors::{LoadErr, NoMemory, SaveErr};
use crate::last_fault::LastFault;
use crate::outside::{Shelf, ShelfCall};
use std::alloc::{AllocError, Global};
use std::collections::BTreeMap;

/// A shelf in memory, which tells what it holds and fails the calls that it is told to fail.
#[derive(Debug, Drop)]
pub struct MemShelf {
    alloc: Global,
    files: BTreeMap<String, Vec<u8>>,
    fail: Vec<u64>,
    calls: u64,
    faults: u64,
    last_fault: LastFault,
}

impl MemShelf {
    /// A shelf that holds nothing. Its loads and saves are numbered from 0 in one count, and those
    /// whose numbers stand in `fail` fail. It takes no memory.
    pub fn new(alloc: Global, fail: Vec<u64>) -> MemShelf
        ensures held { (name : List ℕ) → held_in result name ≡ None }
        ensures fail { result.fail ≡ fail }
        ensures calls { result.calls ≡ 0 }
        ensures faults { result.faults ≡ 0 }
        ensures last_fault { (result.last_fault.call ≡ ShelfCall.Load) × (string_bytes result.last_fault.name ≡ []) }
    {
        MemShelf {
            alloc,
            files: BTreeMap::new(alloc),
            fail,
            calls: 0,
            faults: 0,
            last_fault: LastFault::none(alloc),
        }
    }

    /// Makes the name hold the bytes. It is no call of the trait, and never fails by the list.
    pub fn hold(&mut self, name: &str, bytes: &[u8]) -> Result<(), NoMemory>
        ensures ok { OnOk result (held_in self.new name.now ≡ Some bytes.now) }
        ensures others { (other : List ℕ) → other ≢ name.now → held_in self.new other ≡ held_in self.old other }
        ensures err { OnErr result ((other : List ℕ) → held_in self.new other ≡ held_in self.old other) }
        ensures rest { self.new ≡ record self.old { files = self.new.files } }
    {
        put_file(&mut self.files, self.alloc, name, bytes)?;
        Ok(())
    }

    /// The bytes under a name, `None` exactly where it is not held. It takes no memory.
    pub fn get(&self, name: &str) -> Option<&[u8]>
        ensures { option_copied result ≡ held_in self.now name.now }
    {
        match self.files.get(name) {
            Some(bytes) => Some(bytes.as_slice()),
            None => None,
        }
    }

    /// Counts a call, and says whether it is to fail.
    fn next_call_fails(&mut self) -> bool
        ensures fails { result ≡ shelf_call_fails self.old }
        ensures rest { self.new ≡ record self.old { calls = min (self.old.calls + 1) (2 ^ 64 - 1) } }
    {
        let fails = self.fail.contains(&self.calls);
        self.calls = self.calls.saturating_add(1);
        fails
    }

    /// Notes that the call failed.
    fn note(&mut self, fault: LastFault)
        ensures fails { ShelfFails (shelf_view self.old) (shelf_view self.new) fault.call (string_bytes fault.name) }
        ensures rest { self.new ≡ record self.old { faults = self.new.faults; last_fault = fault } }
    {
        self.faults = self.faults.saturating_add(1);
        self.last_fault = fault;
    }
}

/// Appends the bytes to the room, if they are at most `most`.
fn append_within(bytes: &[u8], room: &mut Vec<u8>, most: u64) -> Result<(), LoadErr>
    ensures ok { OnOk result ((room.new.items ≡ room.old.items ++ bytes.now) × (length bytes.now ≤ most)) }
    ensures too_long { IsErrOf result LoadErr.TooLong → most < length bytes.now }
    ensures err { IfErr result (λ error. (room.new.items ≡ room.old.items) × (error ≢ LoadErr.Failed)) }
{
    if bytes.len() as u64 > most {
        return Err(LoadErr::TooLong);
    }
    match room.extend_from_slice(bytes) {
        Ok(()) => Ok(()),
        Err(_) => Err(LoadErr::NoMemory),
    }
}

/// Makes the name hold a copy of the bytes.
fn put_file(
    files: &mut BTreeMap<String, Vec<u8>>,
    alloc: Global,
    name: &str,
    bytes: &[u8],
) -> Result<(), AllocError>
    ensures ok { OnOk result (option_map (λ bytes. bytes.items) (get_by_text files.new name.now) ≡ Some bytes.now) }
    ensures others { (other : List ℕ) → other ≢ name.now → get_by_text files.new other ≡ get_by_text files.old other }
    ensures err { OnErr result ((other : List ℕ) → get_by_text files.new other ≡ get_by_text files.old other) }
{
    let name = String::from_str(alloc, name)?;
    let bytes = Vec::from_slice(alloc, bytes)?;
    files.insert(name, bytes)?;
    Ok(())
}

impl Shelf for MemShelf {
    ghost shelf = { shelf_view };

    fn load(&mut self, name: &str, room: &mut Vec<u8>, most: u64) -> Result<(), LoadErr>
        ensures ok { OnOk result (Loads (shelf_view self.old) (shelf_view self.new) name.now most room.old.items room.new.items) }
        ensures err { IfErr result (LoadRefused (shelf_view self.old) (shelf_view self.new) name.now most) }
        ensures room { OnErr result (room.new.items ≡ room.old.items) }
        ensures held { SameHeld (shelf_view self.old) (shelf_view self.new) }
        // A call on the list fails, and a name that is not held too; no other call does.
        ensures listed { IsTrue (shelf_call_fails self.old) → IsFailedLoad result }
        ensures failed { IsErrOf result LoadErr.Failed → MayFailLoad self.old name.now }
        ensures rest { CountsCall self.old self.new }
    {
        let fault = LastFault::new(self.alloc, ShelfCall::Load, name);
        let listed = self.next_call_fails();
        let Ok(fault) = fault else {
            return Err(LoadErr::NoMemory);
        };
        if listed {
            self.note(fault);
            return Err(LoadErr::Failed);
        }
        match self.get(name) {
            None => {
                self.note(fault);
                Err(LoadErr::Failed)
            }
            Some(bytes) => append_within(bytes, room, most),
        }
    }

    fn save(&mut self, name: &str, bytes: &[u8]) -> Result<(), SaveErr>
        ensures ok { OnOk result (Saves (shelf_view self.old) (shelf_view self.new) name.now bytes.now) }
        ensures err { IfErr result (SaveRefused (shelf_view self.old) (shelf_view self.new) name.now) }
        ensures others { SameBut (shelf_view self.old) (shelf_view self.new) name.now }
        // A call on the list fails and leaves the map; no other call does.
        ensures listed { IsTrue (shelf_call_fails self.old) → IsFailedSave result × SameHeld (shelf_view self.old) (shelf_view self.new) }
        ensures failed { IsErrOf result SaveErr.Failed → IsTrue (shelf_call_fails self.old) }
        ensures rest { CountsCall self.old self.new }
    {
        let fault = LastFault::new(self.alloc, ShelfCall::Save, name);
        let listed = self.next_call_fails();
        let Ok(fault) = fault else {
            return Err(SaveErr::NoMemory);
        };
        if listed {
            self.note(fault);
            return Err(SaveErr::Failed);
        }
        match put_file(&mut self.files, self.alloc, name, bytes) {
            Ok(()) => Ok(()),
            Err(_) => Err(SaveErr::NoMemory),
        }
    }
}
