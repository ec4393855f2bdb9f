//! What is wrong with a script.

/// What is wrong with a script. The numbers are fixed: whoever tells a kind by its number may rely on them.
#[derive(Clone, Copy, Debug, PartialEq, Eq)]
pub enum FaultKind {
    /// A single quote is not closed (XCU 2.2.2); at the quote.
    UnclosedSingle = 1,
    /// A double quote is not closed (XCU 2.2.3); at the quote.
    UnclosedDouble = 2,
    /// A backquote is not closed (XCU 2.6.3); at the backquote.
    UnclosedBackquote = 3,
    /// A `${` is not closed (XCU 2.6.2); at the `$`.
    UnclosedParam = 4,
    /// A `$((` is not closed (XCU 2.6.4); at the `$`.
    UnclosedArith = 5,
    /// A `$((` meets a `)` that no second one follows (XCU 2.6.4); at the `)`.
    BadArithClose = 6,
    /// A `$(` is not closed (XCU 2.6.3); at the `$`.
    UnclosedSubst = 7,
    /// A backslash is the last byte (XCU 2.2.1); at the backslash.
    LoneBackslash = 8,
    /// A here-document has no delimiter line (XCU 2.7.4); at its operator.
    UnclosedHere = 9,
    /// The word of a here-document has an expansion (XCU 2.7.4); at the word.
    BadHereWord = 10,
    /// The grammar cannot take a token (XCU 2.10); at its first byte.
    Unexpected = 11,
    /// The grammar cannot end here (XCU 2.10); at the length of the input.
    UnexpectedEnd = 12,
    /// The word after `for` is no NAME (XCU 2.9.4); at the word.
    BadForName = 13,
    /// The word of a function definition is no NAME (XCU 2.9.5); at the word.
    BadFunctionName = 14,
    /// More than 100 constructs are open; at the first byte of the last opener, for a function at its name.
    TooDeep = 15,
    /// A `$'` is not closed (POSIX.1-2024, XCU 2.2.4); at the `$`.
    UnclosedDollarSingle = 16,
}

/// The first fault of a script from left to right.
#[derive(Clone, Copy, Debug, PartialEq, Eq)]
pub struct Fault {
    /// What is wrong.
    pub kind: FaultKind,
    /// The offset in bytes, counted from 0, at which it stands.
    pub at: usize,
}
