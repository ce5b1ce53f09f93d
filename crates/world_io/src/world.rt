//! The world, by what is asked of it.
ghost use Rattle.std.specs.Prelude.{ℕ, ◌<◌, ◌^◌};
ghost use Rattle.world_io.specs.Meaning.{Meaning};
ghost use Rattle.world_io.specs.Calls.{Loads, Prints, Complains, Stores};

use crate::fault::{Failed, LoadFault, OutFault};

/// Where files come from, and where bytes go.
///
/// Contracts see a world as its `Meaning`: its files by name, what was printed, complained and
/// stored, the number of loads, prints and stores so far, each as far as the world tells it, and
/// four counts of faults. A count never falls, and it becomes greater only in a call of its own
/// kind that answers `Failed`. Each load, print and store is one call more, whatever it answers.
/// What a call is not said to change stays as it was.
pub trait World {
    /// What the world holds and was given, as far as it tells, and its counts of faults.
    ghost meaning: { Self → Meaning };

    /// Puts the bytes of the file of this name into `into`, which it empties first: at most `most`
    /// bytes.
    /// `Missing` comes only where the world tells its files and has none of the name, and `into` is
    /// then empty. `TooLarge` comes only where `into` holds `most + 1` bytes of the file. Where the
    /// count of failed loads does not rise, these two come exactly where the told files have no
    /// such file or a larger one. After each fault `into` holds a beginning of the file.
    fn load(&mut self, name: &str, most: u64, into: &mut Vec<u8>) -> Result<(), LoadFault>
        requires { most < 2 ^ 32 }
        ensures { Loads (meaning self.old) (meaning self.new) name.now most into.new.items result };

    /// Prints the piece after what was printed. After `Failed` a beginning of the piece went out.
    fn print(&mut self, piece: &[u8]) -> Result<(), OutFault>
        ensures { Prints (meaning self.old) (meaning self.new) piece.now result };

    /// Complains the piece after what was complained. After `Failed` a beginning of the piece went
    /// out.
    fn complain(&mut self, piece: &[u8]) -> Result<(), Failed>
        ensures { Complains (meaning self.old) (meaning self.new) piece.now result };

    /// Stores the bytes as the file of this name, in place of one that was stored before. After
    /// `Failed` a beginning of the bytes is stored, or nothing where nothing was.
    fn store(&mut self, name: &str, bytes: &[u8]) -> Result<(), OutFault>
        ensures { Stores (meaning self.old) (meaning self.new) name.now bytes.now result };
}
