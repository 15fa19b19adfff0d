//! What callers need of rows and of the law of blocks, each the contract of a function that does
//! nothing.
ghost use Rattle.std.specs.Prelude.{List};
ghost use Rattle.chain_arena.specs.declared.node.Node.{Node};
ghost use Rattle.hash_upkeep.specs.declared.hashing.Hashing.{Hashing};
ghost use Rattle.hash_upkeep.specs.declared.moves.Move.{Move};
ghost use Rattle.hash_upkeep.specs.Laws.{EntriesAreOwed, ExactNodesAreCovered, MovesAreCovered};
ghost use Rattle.hash_upkeep.specs.Laws.{RowsComeAndGo, WrittenRowsKeepEntries};

/// A page without a row that came is what it was.
pub fn rows_come_and_go()
    ensures { RowsComeAndGo }
{}

/// A value that is written in its place changes no entry.
pub fn written_rows_keep_entries()
    ensures { WrittenRowsKeepEntries }
{}

/// Exact nodes have the folds of the rows, at whatever places these stand.
pub fn exact_nodes_are_covered()
    ensures { (how : Hashing) (nodes : List Node) → ExactNodesAreCovered how nodes }
{}

/// Nodes that were exact before rows moved have the folds of the rows of both pages.
pub fn moves_are_covered()
    ensures { (m : Move) (nodes : List Node) → MovesAreCovered m nodes }
{}

/// What a partition owes a hashed block are the entries of its rows.
pub fn entries_are_owed()
    ensures { EntriesAreOwed }
{}
