// The laws of every ledger: proved of the definitions that its contract cites.
ghost use Rattle.ledger.specs.Laws.{LedgerLaws};

// Equal funds give equal answers and equal funds; what a transfer moves, what it leaves, and what it keeps.
pub fn ledger_laws()
    ensures { LedgerLaws }
{}
