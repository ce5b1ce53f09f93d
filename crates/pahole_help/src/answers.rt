//! Answers to the words that are the program's own.
ghost use Rattle.std.specs.Prelude.{◌≡◌, map, string_bytes};
ghost use Rattle.pahole_help.specs.Asked.{found, page_for};
ghost use Rattle.pahole_help.specs.Answers.{Answers, Complained, Gives, Shows, Unexplains};
ghost use Rattle.pahole_help.specs.Answers.{memory_line, print_line, unexplained_line};

use crate::pages::{Page, Pages, page_for};
use world_io::{OutFault, World};

/// Prints the page that the words ask for, and answers the exit status: 0 where it is printed, 3
/// where it cannot be printed, 4 for want of memory, and 2 where no explanation has the key. On all
/// but 0 it complains one line. Words that ask for no page answer `None`, and nothing happens. It
/// takes no memory of its own.
pub fn answer<W: World>(world: &mut W, pages: &Pages<'_>, words: &[String]) -> Option<u8>
    ensures { Answers (page_for pages.now (map string_bytes words.now)) (W.meaning world.old)
        (W.meaning world.new) result }
{
    match page_for(pages, words) {
        Some(page) => Some(give(world, page)),
        None => None,
    }
}

/// Prints a page.
fn give<W: World>(world: &mut W, page: Page<'_>) -> u8
    ensures { Gives (found page.entry) (W.meaning world.old) (W.meaning world.new) result }
{
    match page {
        Page::Text(text) => show(world, text),
        Page::Unexplained => unexplain(world),
    }
}

/// Prints a text.
fn show<W: World>(world: &mut W, text: &str) -> u8
    ensures { Shows text.now (W.meaning world.old) (W.meaning world.new) result }
{
    match world.print(text.as_bytes()) {
        Ok(()) => 0,
        Err(OutFault::Failed) => {
            complain(world, "pahole: cannot print\n");
            3
        }
        Err(OutFault::Memory) => {
            complain(world, "pahole: out of memory\n");
            4
        }
    }
}

/// Complains that no explanation has the key.
fn unexplain<W: World>(world: &mut W) -> u8
    ensures { Unexplains (W.meaning world.old) (W.meaning world.new) result }
{
    complain(
        world,
        "pahole: --explain takes the number of an error, or usage1 to usage7\n",
    );
    2
}

/// Complains a line.
fn complain<W: World>(world: &mut W, line: &str)
    ensures told { Complained line.now (W.meaning world.old) (W.meaning world.new) }
    ensures only { W.meaning world.new ≡ record (W.meaning world.old) {
      complained = (W.meaning world.new).complained;
      complaints = (W.meaning world.new).complaints;
    } }
{
    let _ = world.complain(line.as_bytes());
}
