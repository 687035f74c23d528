//! Causes in their order, completion codes, texts and limits.
ghost use Rattle.worked_examples.specs.Codes.{CausesComeInOrder, CompletionCodesAsTexts, FormsAndTheirCodes, Limits};
ghost use Rattle.worked_examples.specs.Codes.{NamesAreFull, RepliesAsTexts};

/// The first cause that holds is the answer. Each list goes down the causes of a service in their order, and most
/// services in it also have later causes.
pub fn causes_come_in_order()
    ensures { CausesComeInOrder }
{}

/// The same release is refused with another code in each family of forms, and returns 4 if it is conditional. Cells are
/// not released as an area; free storage after them is found first, and the area before them is released.
pub fn forms_and_their_codes()
    ensures { FormsAndTheirCodes }
{}

/// The codes of all causes as they are printed for STORAGE; and those whose last two digits differ in other forms: of
/// an E form that obtains, of one that releases, and of an R form.
pub fn completion_codes_as_texts()
    ensures { CompletionCodesAsTexts }
{}

/// Replies as they are printed: an address and a length have eight upper case hexadecimal digits.
pub fn replies_as_texts()
    ensures { RepliesAsTexts }
{}

/// There are at most 256 cell pools and 1,024 names; a name that is defined can be given another word. The regions have
/// whole pages, at most 16,360K below the line and 1,572,864K above it, and a history has 1 to 65,536 changes.
pub fn limits()
    ensures { Limits }
{}

/// A statement whose name is one too many is refused, also in a conditional form for which there is no storage; but a
/// bad length and a missing cell pool are found before that.
pub fn names_are_full()
    ensures { NamesAreFull }
{}
