//! Laws of the grammar, each the contract of a function that does nothing.
ghost use Rattle.script_laws.specs.GrammarLaws.{FieldsAreReadAgain, KeysAreReadAgain, RefusalsAreFirst};

/// A field that was written is read again, and no two fields are written alike.
pub fn fields_are_read_again()
    ensures { FieldsAreReadAgain }
{}

/// A key that was written is read again, and no two keys are written alike.
pub fn keys_are_read_again()
    ensures { KeysAreReadAgain }
{}

/// A refusal speaks of the first line that isn't in the grammar.
pub fn refusals_are_first()
    ensures { RefusalsAreFirst }
{}
