// The table of live swaps, by rising number.
ghost use Rattle.std.specs.Prelude.{◌≡◌, ◌<◌, ◌≤◌, [], ◌==◌, position, IfOk, vec_len, vec_capacity, slice_index_or};
ghost use Rattle.swaps.specs.Swaps.{blank};
ghost use Rattle.swaps.specs.States.{after_event};
ghost use Rattle.book.specs.Calls.{answered, stated};

use refusal::Refusal;
use std::alloc::{AllocError, Global};
use swaps::state::Event;
use swaps::swap::Swap;

#[derive(Drop)]
pub struct Table {
    pub(crate) swaps: Vec<Swap>,
}

// The place of the swap of that number, if there is one.
pub(crate) fn place(swaps: &[Swap], number: u32) -> Option<usize>
    ensures { result ≡ position (λ s. s.number == number) swaps.now }
{
    swaps.iter().position(|swap| swap.number == number)
}

impl Table {
    // An empty table with room for 256 swaps.
    pub(crate) fn new(heap: Global) -> Result<Table, AllocError>
        ensures { IfOk result (λ t. (t.swaps.items ≡ []) × (256 ≤ vec_capacity t.swaps)) }
    {
        Ok(Table {
            swaps: Vec::with_capacity(heap, 256)?,
        })
    }

    // An event changes the state of that one swap, or is refused and changes nothing.
    pub(crate) fn change(&mut self, i: usize, event: Event) -> Result<(), Refusal>
        requires { i < vec_len self.old.swaps }
        ensures answer { result ≡ answered (after_event (slice_index_or self.old.swaps.items i blank).state event) (λ _. tt) }
        ensures after { self.new.swaps.items ≡ stated self.old.swaps.items i (after_event (slice_index_or self.old.swaps.items i blank).state event) }
        ensures capacity { vec_capacity self.new.swaps ≡ vec_capacity self.old.swaps }
    {
        let swap = &mut self.swaps[i];
        swap.state = swap.state.after(event)?;
        Ok(())
    }
}
