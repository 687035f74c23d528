//! The operands of each form of each operation, as docs/STATEMENTS.md has them.
ghost use Rattle.std.specs.Prelude.{◌≡◌, true, IfSome};
ghost use Rattle.operand_texts.specs.Words.{is_word};

use macro_operands::rows::Kind;
use operand_texts::words::is_word;

/// A keyword, or what an operand without one is, and the kind of its value.
pub type Keyword = (&'static [u8], Kind);

/// What can be written after an operation that has one of these forms.
pub struct MacroForm {
    pub operation: &'static [u8],
    /// What the first operand is. None if the operation has no forms.
    pub words: &'static [&'static [u8]],
    /// The operands without a keyword.
    pub positions: &'static [Keyword],
    pub keywords: &'static [Keyword],
    /// The keywords that have to be written.
    pub required: &'static [&'static [u8]],
    /// One that can be written in place of all these.
    pub instead: Option<&'static [u8]>,
}

/// The keywords that may be written in each form of these operations.
static EVERYWHERE: [Keyword; 3] = [
    (b"RELATED", Kind::Any),
    (b"LINKAGE", Kind::Any),
    (b"REGS", Kind::Any),
];

static WITH_THESE: [&[u8]; 6] = [
    b"STORAGE",
    b"GETMAIN",
    b"FREEMAIN",
    b"CPOOL",
    b"ATTACH",
    b"DETACH",
];

/// The forms, in the order of docs/STATEMENTS.md.
static FORMS: [MacroForm; 21] = [
    MacroForm {
        operation: b"STORAGE",
        words: &[b"OBTAIN"],
        positions: &[],
        keywords: &[
            (b"LENGTH", Kind::Length),
            (b"SP", Kind::Value),
            (b"ADDR", Kind::Place),
            (b"BNDRY", Kind::Boundary),
            (b"LOC", Kind::Location),
            (b"COND", Kind::Condition),
        ],
        required: &[b"LENGTH"],
        instead: None,
    },
    MacroForm {
        operation: b"STORAGE",
        words: &[b"RELEASE"],
        positions: &[],
        keywords: &[
            (b"LENGTH", Kind::Value),
            (b"ADDR", Kind::Value),
            (b"SP", Kind::Value),
            (b"COND", Kind::Condition),
        ],
        required: &[b"LENGTH", b"ADDR"],
        instead: Some(b"SP"),
    },
    MacroForm {
        operation: b"GETMAIN",
        words: &[b"R"],
        positions: &[],
        keywords: &[(b"LV", Kind::Value), (b"SP", Kind::Value)],
        required: &[b"LV"],
        instead: None,
    },
    MacroForm {
        operation: b"GETMAIN",
        words: &[b"RC", b"RU"],
        positions: &[],
        keywords: &[
            (b"LV", Kind::Value),
            (b"SP", Kind::Value),
            (b"BNDRY", Kind::Boundary),
            (b"LOC", Kind::Location),
        ],
        required: &[b"LV"],
        instead: None,
    },
    MacroForm {
        operation: b"GETMAIN",
        words: &[b"VRC", b"VRU"],
        positions: &[],
        keywords: &[
            (b"LV", Kind::Pair),
            (b"SP", Kind::Value),
            (b"BNDRY", Kind::Boundary),
            (b"LOC", Kind::Location),
        ],
        required: &[b"LV"],
        instead: None,
    },
    MacroForm {
        operation: b"GETMAIN",
        words: &[b"EC", b"EU"],
        positions: &[],
        keywords: &[
            (b"LV", Kind::Value),
            (b"A", Kind::Name),
            (b"SP", Kind::Value),
            (b"BNDRY", Kind::Boundary),
        ],
        required: &[b"LV", b"A"],
        instead: None,
    },
    MacroForm {
        operation: b"FREEMAIN",
        words: &[b"R", b"RC", b"RU"],
        positions: &[],
        keywords: &[
            (b"LV", Kind::Value),
            (b"A", Kind::Value),
            (b"SP", Kind::Value),
        ],
        required: &[b"LV", b"A"],
        instead: Some(b"SP"),
    },
    MacroForm {
        operation: b"FREEMAIN",
        words: &[b"E", b"EC", b"EU"],
        positions: &[],
        keywords: &[
            (b"LV", Kind::Value),
            (b"A", Kind::Name),
            (b"SP", Kind::Value),
        ],
        required: &[b"LV", b"A"],
        instead: None,
    },
    MacroForm {
        operation: b"CPOOL",
        words: &[b"BUILD"],
        positions: &[],
        keywords: &[
            (b"PCELLCT", Kind::Value),
            (b"SCELLCT", Kind::Value),
            (b"CSIZE", Kind::Value),
            (b"CPID", Kind::Name),
            (b"SP", Kind::Value),
            (b"LOC", Kind::Location),
            (b"HDR", Kind::Header),
        ],
        required: &[b"PCELLCT", b"CSIZE", b"CPID"],
        instead: None,
    },
    MacroForm {
        operation: b"CPOOL",
        words: &[b"GET"],
        positions: &[(b"a condition", Kind::ConditionWord)],
        keywords: &[(b"CPID", Kind::Name), (b"CELL", Kind::Place)],
        required: &[b"CPID"],
        instead: None,
    },
    MacroForm {
        operation: b"CPOOL",
        words: &[b"FREE"],
        positions: &[],
        keywords: &[(b"CPID", Kind::Name), (b"CELL", Kind::Value)],
        required: &[b"CPID", b"CELL"],
        instead: None,
    },
    MacroForm {
        operation: b"CPOOL",
        words: &[b"DELETE"],
        positions: &[],
        keywords: &[(b"CPID", Kind::Name)],
        required: &[b"CPID"],
        instead: None,
    },
    MacroForm {
        operation: b"ATTACH",
        words: &[],
        positions: &[],
        keywords: &[
            (b"EP", Kind::Name),
            (b"GSPV", Kind::Value),
            (b"GSPL", Kind::Value),
            (b"SHSPV", Kind::Value),
            (b"SHSPL", Kind::Value),
            (b"SZERO", Kind::Condition),
        ],
        required: &[],
        instead: None,
    },
    MacroForm {
        operation: b"DETACH",
        words: &[],
        positions: &[(b"the task's number", Kind::Value)],
        keywords: &[],
        required: &[],
        instead: None,
    },
    MacroForm {
        operation: b"RUN",
        words: &[],
        positions: &[(b"the task's number", Kind::Value)],
        keywords: &[],
        required: &[],
        instead: None,
    },
    MacroForm {
        operation: b"ENDTASK",
        words: &[],
        positions: &[],
        keywords: &[],
        required: &[],
        instead: None,
    },
    MacroForm {
        operation: b"POKE",
        words: &[],
        positions: &[(b"the address", Kind::Value), (b"the bytes", Kind::Content)],
        keywords: &[],
        required: &[],
        instead: None,
    },
    MacroForm {
        operation: b"PEEK",
        words: &[],
        positions: &[
            (b"the address", Kind::Value),
            (b"how many bytes", Kind::Size),
        ],
        keywords: &[],
        required: &[],
        instead: None,
    },
    MacroForm {
        operation: b"MAP",
        words: &[],
        positions: &[],
        keywords: &[],
        required: &[],
        instead: None,
    },
    MacroForm {
        operation: b"BACK",
        words: &[],
        positions: &[(b"how many changes", Kind::Count)],
        keywords: &[],
        required: &[],
        instead: None,
    },
    MacroForm {
        operation: b"FORWARD",
        words: &[],
        positions: &[(b"how many changes", Kind::Count)],
        keywords: &[],
        required: &[],
        instead: None,
    },
];

/// The forms. Nothing is said of them, so that who looks through them doesn't carry the table.
pub(crate) fn forms() -> &'static [MacroForm] {
    FORMS.as_slice()
}

/// The word of a list that a text is, in either case.
fn known_word(text: &[u8], list: &[&'static [u8]]) -> Option<&'static [u8]>
    ensures { IfSome result (λ word. is_word text.now word.now ≡ true) }
{
    for word in list {
        if is_word(text, word) {
            return Some(*word);
        }
    }
    None
}

/// The keyword of a list that a text is, in either case, with its kind.
fn listed(text: &[u8], list: &[Keyword]) -> Option<Keyword>
    ensures { IfSome result (λ found. is_word text.now found.0.now ≡ true) }
{
    for row in list {
        if is_word(text, row.0) {
            return Some(*row);
        }
    }
    None
}

/// The operation that a text is, in either case.
pub(crate) fn operation_of(text: &[u8]) -> Option<&'static [u8]>
    ensures { IfSome result (λ word. is_word text.now word.now ≡ true) }
{
    for form in forms() {
        if is_word(text, form.operation) {
            return Some(form.operation);
        }
    }
    None
}

/// Whether the first operand of an operation is a form.
pub(crate) fn has_forms(operation: &[u8]) -> bool {
    for form in forms() {
        if is_word(operation, form.operation) {
            return !form.words.is_empty();
        }
    }
    false
}

/// The operation that a text is, in either case, if it has operands.
pub(crate) fn operation_with_operands(text: &[u8]) -> Option<&'static [u8]> {
    for form in forms() {
        let count = form
            .words
            .len()
            .max(form.positions.len())
            .max(form.keywords.len());
        if is_word(text, form.operation) && count > 0 {
            return Some(form.operation);
        }
    }
    None
}

/// What can be written after an operation whose first operand is this text.
pub(crate) fn form_of(operation: &[u8], first: &[u8]) -> Option<&'static MacroForm>
    ensures { IfSome result (λ form. is_word operation.now form.now.operation.now ≡ true) }
{
    for form in forms() {
        if is_word(operation, form.operation)
            && (form.words.is_empty() || known_word(first, form.words).is_some())
        {
            return Some(form);
        }
    }
    None
}

/// The keywords that an operation has in each form.
pub(crate) fn everywhere(operation: &[u8]) -> &'static [Keyword] {
    if known_word(operation, WITH_THESE.as_slice()).is_some() {
        EVERYWHERE.as_slice()
    } else {
        &[]
    }
}

/// The keyword of a form that a text is, with its kind.
pub(crate) fn keyword_of(form: &MacroForm, text: &[u8]) -> Option<Keyword>
    ensures { IfSome result (λ found. is_word text.now found.0.now ≡ true) }
{
    match listed(text, form.keywords) {
        Some(found) => Some(found),
        None => listed(text, everywhere(form.operation)),
    }
}

/// The keyword that a text is of some form of an operation.
pub(crate) fn keyword_in(operation: &[u8], text: &[u8]) -> Option<&'static [u8]>
    ensures { IfSome result (λ word. is_word text.now word.now ≡ true) }
{
    for form in forms() {
        if is_word(operation, form.operation)
            && let Some((word, _)) = keyword_of(form, text)
        {
            return Some(word);
        }
    }
    None
}

/// The kind of an operand of a form: by its keyword, or if it has none by whether it's the first.
pub(crate) fn kind_of(form: &MacroForm, keyword: &[u8], is_first: bool) -> Option<Kind> {
    if let Some((_, kind)) = keyword_of(form, keyword) {
        return Some(kind);
    }
    let place = if is_first { 0 } else { 1 };
    match form.positions.get(place) {
        Some((_, kind)) => Some(*kind),
        None => None,
    }
}
