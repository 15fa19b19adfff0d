//! The laws of a page in bytes.
ghost use Rattle.byte_page.specs.Setting.{SetsAgree};

/// A value is set, and refused as too long for the page, as it is by a plain page.
pub fn sets_agree()
    ensures { SetsAgree }
{}
