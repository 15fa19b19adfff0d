//! Claims that end the test where they don't hold.
ghost use Rattle.std.specs.Prelude.{IsTrue};

use std::process::Abort;

/// Ends the test where the claim doesn't hold, and tells what was wanted.
pub(crate) fn ensure<R: Abort>(rt: &R, claim: bool, wanted: &str)
    ensures { IsTrue claim }
{
    if !claim {
        rt.panic(wanted)
    }
}

/// The same of one of many, and tells what that is and which.
pub(crate) fn ensure_at<R: Abort>(rt: &R, claim: bool, what: &str, place: usize)
    ensures { IsTrue claim }
{
    if !claim {
        panic!(rt; "{what} {place}")
    }
}
