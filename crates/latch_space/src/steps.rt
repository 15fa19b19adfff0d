//! What a table offers, with a name for each thing that a caller owes: at a space's types a check
//! takes seconds to state a call that owes it all in one clause. The first four types of a call are
//! those of its table.
ghost use Rattle.std.specs.Prelude.{◌≡◌, ◌<◌, [], ◌∷◌, ◌==◌, bit_or, length, IfOk};
ghost use Rattle.std.specs.Mem.Slots.{slots_items, slots_len, IsFull};
ghost use mathlib.Core.Option.{none};
ghost use prog.Atomic.{either};
ghost use Rattle.atomic_table.specs.Table.{step, Allows, Splits, Joins, opening, Final, Seen, rest};

use atomic_table::{Closed, Join, Play, Refused, Seat, Shared, Split, Table, TableRule};
use std::alloc::Global;

/// A table with these words and slots, and its first seat.
pub(crate) fn begin_table<S, V, K, P: TableRule<S, V, K>>(
    alloc: Global,
    words: &[u64],
    slots: Vec<S>,
    about: &K,
) -> Result<(Table<S, V, K, P, Global>, Seat<S, V>), Refused<S, Global>>
    requires rule { P.holds about.now (opening words.now slots.items (P.first about.now)) }
    ensures ok { IfOk result (λ t. (t.0.shared.table_id.words ≡ length words.now)
        × (t.0.shared.table_id.slots ≡ length slots.items)
        × (t.1.table_id ≡ t.0.shared.table_id) × (t.1.id ≡ 0)
        × (t.1.me ≡ (P.first about.now, [])) × (t.0.shared.key ≡ about.now)) }
{
    Table::new(alloc, words, slots, about)
}

/// What is left of a table, whose last state has the seat's view.
pub(crate) fn end_table<S, V, K, P: TableRule<S, V, K>>(
    table: Table<S, V, K, P, Global>,
    seat: Seat<S, V>,
) -> Closed<S, Global>
    requires own { seat.table_id ≡ table.shared.table_id }
    ensures counts { (slots_len result.words ≡ table.shared.table_id.words)
        × (slots_len result.slots ≡ table.shared.table_id.slots) }
    ensures values { IsFull result.words × IsFull result.slots
        × Final (Seen (P.holds table.shared.key) seat.id seat.me.0) (slots_items result.words)
        (slots_items result.slots) }
{
    table.close_with(seat)
}

/// A step that reads a word.
pub(crate) fn read_word<S, V, K, P: TableRule<S, V, K>, M: Play<S, V>>(
    table: &Shared<S, V, K, P>,
    seat: &mut Seat<S, V>,
    word: usize,
) -> u64
    requires own { seat.old.table_id ≡ table.now.table_id }
    requires word { word < table.now.table_id.words }
    requires rule { Allows (P.holds table.now.key) table.now.table_id.slots seat.old.id seat.old.me
        word (λ n. n) (M.then (step table.now.table_id.slots word 0 0 none) seat.old.me) }
    ensures own { (seat.new.table_id ≡ seat.old.table_id) × (seat.new.id ≡ seat.old.id) }
    ensures told { M.then (step table.now.table_id.slots word 0 0 none) seat.old.me result
        seat.new.me }
{
    table.load::<M>(seat, word)
}

/// A step that writes a word as it is.
pub(crate) fn touch_word<S, V, K, P: TableRule<S, V, K>, M: Play<S, V>>(
    table: &Shared<S, V, K, P>,
    seat: &mut Seat<S, V>,
    word: usize,
) -> u64
    requires own { seat.old.table_id ≡ table.now.table_id }
    requires word { word < table.now.table_id.words }
    requires rule { Allows (P.holds table.now.key) table.now.table_id.slots seat.old.id seat.old.me
        word (λ n. bit_or n 0) (M.then (step table.now.table_id.slots word 0 0 none) seat.old.me) }
    ensures own { (seat.new.table_id ≡ seat.old.table_id) × (seat.new.id ≡ seat.old.id) }
    ensures told { M.then (step table.now.table_id.slots word 0 0 none) seat.old.me result
        seat.new.me }
{
    table.fetch_or::<M>(seat, word, 0)
}

/// A step that writes a word.
pub(crate) fn write_word<S, V, K, P: TableRule<S, V, K>, M: Play<S, V>>(
    table: &Shared<S, V, K, P>,
    seat: &mut Seat<S, V>,
    word: usize,
    new: u64,
)
    requires own { seat.old.table_id ≡ table.now.table_id }
    requires word { word < table.now.table_id.words }
    requires rule { Allows (P.holds table.now.key) table.now.table_id.slots seat.old.id seat.old.me
        word (λ _. new) (λ _. M.then (step table.now.table_id.slots word new 0 none) seat.old.me
        new) }
    ensures own { (seat.new.table_id ≡ seat.old.table_id) × (seat.new.id ≡ seat.old.id) }
    ensures told { M.then (step table.now.table_id.slots word new 0 none) seat.old.me new
        seat.new.me }
{
    table.store::<M>(seat, word, new);
}

/// A step that writes a word if it was `old`, and returns it as it was.
pub(crate) fn change_word<S, V, K, P: TableRule<S, V, K>, M: Play<S, V>>(
    table: &Shared<S, V, K, P>,
    seat: &mut Seat<S, V>,
    word: usize,
    old: u64,
    new: u64,
) -> u64
    requires own { seat.old.table_id ≡ table.now.table_id }
    requires word { word < table.now.table_id.words }
    requires rule { Allows (P.holds table.now.key) table.now.table_id.slots seat.old.id seat.old.me
        word (λ n. either (n == old) new n) (M.then (step table.now.table_id.slots word old new none)
        seat.old.me) }
    ensures own { (seat.new.table_id ≡ seat.old.table_id) × (seat.new.id ≡ seat.old.id) }
    ensures told { M.then (step table.now.table_id.slots word old new none) seat.old.me result
        seat.new.me }
{
    table.compare_exchange::<M>(seat, word, old, new)
}

/// Puts a value into the slot that the seat took last, and gives the one that was there.
pub(crate) fn swap_slot<S, V, K, P: TableRule<S, V, K>>(
    table: &Shared<S, V, K, P>,
    seat: &mut Seat<S, V>,
    slot: usize,
    new: S,
) -> S
    requires own { seat.old.table_id ≡ table.now.table_id }
    requires last { (old : S) × (seat.old.me.1 ≡ (slot, old) ∷ rest seat.old.me.1) }
    ensures own { (seat.new.table_id ≡ seat.old.table_id) × (seat.new.id ≡ seat.old.id) }
    ensures found { seat.old.me.1 ≡ (slot, result) ∷ rest seat.old.me.1 }
    ensures after { seat.new.me ≡ (seat.old.me.0, (slot, new) ∷ rest seat.old.me.1) }
{
    table.exchange(seat, slot, new)
}

/// A step that cuts a seat's view in two, with a new seat that has the second.
pub(crate) fn cut_seat<S, V, K, P: TableRule<S, V, K>, M: Split<V>>(
    table: &Shared<S, V, K, P>,
    seat: &mut Seat<S, V>,
) -> Seat<S, V>
    requires own { seat.old.table_id ≡ table.now.table_id }
    requires word { 0 < table.now.table_id.words }
    requires rule { Splits (P.holds table.now.key) seat.old.id seat.old.me.0
        (M.left seat.old.me.0) (M.right seat.old.me.0) }
    ensures own { (seat.new.table_id ≡ seat.old.table_id) × (seat.new.id ≡ seat.old.id) }
    ensures left { seat.new.me ≡ (M.left seat.old.me.0, seat.old.me.1) }
    ensures right { (result.table_id ≡ seat.old.table_id)
        × (result.me ≡ (M.right seat.old.me.0, [])) }
{
    table.split_seat::<M>(seat)
}

/// A step by which a seat takes in the view of another.
pub(crate) fn merge_seat<S, V, K, P: TableRule<S, V, K>, M: Join<V>>(
    table: &Shared<S, V, K, P>,
    seat: &mut Seat<S, V>,
    other: Seat<S, V>,
)
    requires own { seat.old.table_id ≡ table.now.table_id }
    requires other { other.table_id ≡ table.now.table_id }
    requires none { other.me.1 ≡ [] }
    requires word { 0 < table.now.table_id.words }
    requires rule { Joins (P.holds table.now.key) seat.old.id seat.old.me.0 other.id other.me.0
        (M.both seat.old.me.0 other.me.0) M.spent }
    ensures own { (seat.new.table_id ≡ seat.old.table_id) × (seat.new.id ≡ seat.old.id) }
    ensures both { seat.new.me ≡ (M.both seat.old.me.0 other.me.0, seat.old.me.1) }
{
    table.join_seat::<M>(seat, other);
}
