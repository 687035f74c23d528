//! What may be wrong with a statement.

/// What is wrong with a statement, by the first check that it fails. The numbers 1 to 8 are the kinds in this order.
#[derive(Clone, Copy, Debug, PartialEq, Eq)]
pub enum FaultKind {
    /// Column 1 isn't blank, and has no name of up to 63 letters and digits.
    Column = 1,
    /// A rule of continuation is broken, or the statement is still open at the end.
    Continuation,
    /// The operation is missing or unknown.
    Operation,
    /// An apostrophe or a parenthesis that isn't closed or is closed too often, or an operand that the statement
    /// doesn't have.
    Operand,
    /// A keyword that an earlier operand has.
    Repeated,
    /// An operand that the statement requires is missing.
    Missing,
    /// A value that isn't of its operand's kind.
    Value,
    /// A keyword or a kind of value that isn't supported.
    LeftOut,
}
