//! The law of legal bytes, the contract of a function that does nothing.
ghost use Rattle.legal_law.specs.Laws.{LegalIsSound};

/// Bytes are a legal report exactly where they spell one whose lines keep all points.
pub fn legal_is_sound()
    ensures { LegalIsSound }
{}
