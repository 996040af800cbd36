// What a caller may ask of the book.
ghost use Rattle.std.specs.Prelude.{◌≡◌, ◌+◌, length};
ghost use Rattle.book.specs.Reading.{reading};
ghost use Rattle.book.specs.Calls.{swap_of};

use crate::book::Book;
use swaps::swap::Swap;

impl Book {
    // The session after the last that was closed.
    pub fn current(&self) -> u32
        ensures { result ≡ (reading self.now).closed + 1 }
    {
        self.closed + 1
    }

    // How many swaps are live.
    pub fn live(&self) -> usize
        ensures { result ≡ length (reading self.now).swaps }
    {
        self.table.swaps.len()
    }

    // The live swap of that number.
    pub fn swap(&self, number: i64) -> Option<Swap>
        ensures { result ≡ swap_of (reading self.now) number }
    {
        match self.found(number) {
            Ok(i) => Some(self.table.swaps[i]),
            Err(_) => None,
        }
    }
}
