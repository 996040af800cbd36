// What the book promises, whatever calls it has had.
ghost use Rattle.book.specs.Laws.{BookLaws};

// Live numbers, fair swaps, numbers that never come back, an ask and a no, and the one swap that a call changes.
pub fn book_laws()
    ensures { BookLaws }
{}
