//! Lines that are written out.

ghost use Rattle.cx_record.specs.Examples.{Worked};

/// The lines of nine events.
pub fn worked()
    ensures { Worked }
{}
