/// Why a line says no command that can be applied.
#[derive(Clone, Copy, Debug, PartialEq, Eq)]
pub enum LineFault {
    /// The words are none of the language's forms, or the line is too long.
    Syntax,
    /// A number is outside its range.
    Range,
}
