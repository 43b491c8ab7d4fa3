ghost use Rattle.std.specs.Prelude.{List, ℕ, OnOk, OnErr, IfErr, ◌≡◌};
ghost use Rattle.oxml_base.specs.Outside.{ShelfView, SinkView, SameHeld, Loads, LoadRefused, SameBut, Saves, SaveRefused, Puts, PutFails};

use crate::errors::{Failed, LoadErr, SaveErr};

/// The calls of a shelf.
#[derive(Clone, Copy, Debug, PartialEq, Eq)]
pub enum ShelfCall {
    Load,
    Save,
}

/// A place that holds bytes under names, as the files of a system.
pub trait Shelf {
    ghost shelf: { Self → ShelfView };

    /// Appends all bytes of the name to `room`, if they are at most `most`.
    ///
    /// `Failed` comes only where the outside refused the call, and `TooLong` only where more than
    /// `most` bytes came. After each refusal the room is as before.
    fn load(&mut self, name: &str, room: &mut Vec<u8>, most: u64) -> Result<(), LoadErr>
        ensures ok { OnOk result (Loads (shelf self.old) (shelf self.new) name.now most room.old.items room.new.items) }
        ensures err { IfErr result (LoadRefused (shelf self.old) (shelf self.new) name.now most) }
        ensures room { OnErr result (room.new.items ≡ room.old.items) }
        ensures held { SameHeld (shelf self.old) (shelf self.new) };

    /// Makes the name hold the bytes.
    ///
    /// `Failed` comes only where the outside refused the call; what the name then holds is left open.
    fn save(&mut self, name: &str, bytes: &[u8]) -> Result<(), SaveErr>
        ensures ok { OnOk result (Saves (shelf self.old) (shelf self.new) name.now bytes.now) }
        ensures err { IfErr result (SaveRefused (shelf self.old) (shelf self.new) name.now) }
        ensures others { SameBut (shelf self.old) (shelf self.new) name.now };
}

/// A place that takes bytes in order, as a channel of a process. It takes no memory.
pub trait Sink {
    ghost sink: { Self → SinkView };

    /// Takes the piece. `Failed` comes only where the outside refused the call.
    fn put(&mut self, piece: &[u8]) -> Result<(), Failed>
        ensures ok { OnOk result (Puts (sink self.old) (sink self.new) piece.now) }
        ensures err { OnErr result (PutFails (sink self.old) (sink self.new) piece.now) };
}
