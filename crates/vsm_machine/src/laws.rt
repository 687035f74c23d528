//! What follows from the definitions. Each law is the contract of a function that does nothing.

ghost use Rattle.vsm_machine.specs.Laws.{FramesAreExact, SwapsLeadBack};

/// A change that was exchanged with the machine can be exchanged back. The machine then has the settings, the storage
/// and the defined names with their words that it had, and the change means what it meant, to the storage and to the
/// names.
pub fn swaps_lead_back()
    ensures { SwapsLeadBack }
{}

/// A change that fits has a frame for each page that it assigns, and for no other. The same holds of the changes that a
/// bench keeps, of those that are undone, and of one that leads back.
pub fn frames_are_exact()
    ensures { FramesAreExact }
{}
