//! What is true of the scripts that are written, as the contract of a function that does nothing.

ghost use Rattle.script_writing.specs.Laws.{CallsAreRead};

/// The object of a call is read as the call that was written.
pub fn calls_are_read()
    ensures { CallsAreRead }
{}
