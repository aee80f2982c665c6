//! How answers are written.

/// How the answers of a program are written, as its command line asks for.
#[derive(Clone, Copy)]
pub struct Style {
    /// An empty line follows each answer.
    pub is_framed: bool,
    /// Each answer is one line of JSON.
    pub is_json: bool,
    /// Times are written as dates.
    pub has_dates: bool,
}

impl Style {
    /// Answers as text, with times in digits, and nothing behind them.
    pub const PLAIN: Style = Style {
        is_framed: false,
        is_json: false,
        has_dates: false,
    };
}
