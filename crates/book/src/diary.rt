// The diary: the ends that come first, by session and then by swap number.
ghost use Rattle.std.specs.Prelude.{◌≡◌, min, map, length, take, drop};
ghost use Rattle.keeper.specs.Order.{first_of};
ghost use Rattle.keeper.specs.First.{FirstOf};
ghost use Rattle.book.specs.Reading.{reading};
ghost use Rattle.swaps.specs.Ends.{sooner, end_of};

use crate::book::Book;
use keeper::Keeper;
use swaps::ends::End;

impl Book {
    // Fills the places, which are lent since no call asks for memory, with the first ends in order, and answers how many it filled; the others
    // stay.
    pub fn diary(&self, places: &mut [End]) -> usize
        ensures count { result ≡ min (length places.old) (length (reading self.now).swaps) }
        ensures held { take result places.new ≡ first_of sooner (length places.old) (map end_of (reading self.now).swaps) }
        ensures rest { drop result places.new ≡ drop result places.old }
        ensures first { FirstOf sooner (length places.old) (map end_of (reading self.now).swaps) (take result places.new) }
    {
        // `keeper::first_of` has this loop for entries that stand in a list: a rule passed to it would need a clause longer than the loop.
        let mut keeper = Keeper::new(places);
        for swap in self.table.swaps.iter() {
            keeper.put(swap.end());
        }
        keeper.len()
    }
}
