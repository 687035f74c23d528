//! How a check is written.

use explain_text::Form;

/// How a check is written.
#[derive(Clone, Copy)]
pub struct CheckLayout {
    pub form: Form,
    /// Whether what is left at the end has a line at each statement that took it.
    pub leaks: bool,
}
