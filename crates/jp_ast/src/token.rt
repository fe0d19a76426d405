use jp_pred::Name;

/// A place in a text. Lines and columns count from 1, columns in bytes; each stands still at the greatest `u32`.
#[derive(Clone, Copy, Debug, PartialEq, Eq)]
pub struct Place {
    pub line: u32,
    pub col: u32,
}

/// What a token is.
#[derive(Debug, Drop)]
pub enum Lexeme {
    /// A name or a reserved word.
    Word(Name),
    /// A number, and whether it was written in hexadecimal digits.
    Number { value: u32, hex: bool },
    /// A text literal's value, without its quotes and with its escapes resolved.
    Text(Name),
    /// A sign, as its position from 0 in the list
    /// `{ } ( ) [ ] ; , . = < > ! ~ ? : + - * / % & | ^ @ == != <= >= && || << >> >>> += -= ++ --`.
    Sign(u8),
    /// The end of the text.
    End,
}

/// A token with the place of its first byte.
#[derive(Debug, Drop)]
pub struct Token {
    pub place: Place,
    pub lexeme: Lexeme,
}
