//! Laws of rows that come, go and move.
ghost use Rattle.std.specs.Prelude.{ℕ, Bool};
ghost use Rattle.key_tuple.specs.Order.{FieldList};
ghost use Rattle.hash_law.specs.Laws.{InsertsChangeFew, DeletesChangeFew, RowsChangeFew};
ghost use Rattle.hash_law.specs.Laws.{TailsLeave, TailsJoin, ChangesAreFew};

/// A row that comes brings in what it leads, and drives out what it takes over.
pub fn inserts_change_few()
    ensures { InsertsChangeFew }
{}

/// A row that goes takes along what it brought in, and what it drove out comes back.
pub fn deletes_change_few()
    ensures { DeletesChangeFew }
{}

/// A tail that goes takes its entries along, and bares the seam.
pub fn tails_leave()
    ensures { TailsLeave }
{}

/// Rows that are appended bring their entries, and close the seam.
pub fn tails_join()
    ensures { TailsJoin }
{}

/// No more than two nodes come, and no more than one goes, for a row or a seam.
pub fn changes_are_few()
    ensures { ChangesAreFew }
{}

/// The same of rows: what a row or a tail that comes or goes exchanges among a block's entries.
pub fn rows_change_few()
    ensures { (left : Bool) (fold : FieldList → ℕ) (block : ℕ) → RowsChangeFew left fold block }
{}
