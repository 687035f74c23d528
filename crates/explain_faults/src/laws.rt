//! Laws on the definitions of this crate.
ghost use Rattle.explain_faults.specs.Places.{FieldBytesAreThere};

/// At the places of a field's bytes the lines have these bytes.
pub fn field_bytes_are_there()
    ensures { FieldBytesAreThere }
{}
