//! The signs, by their numbers in `Lexeme::Sign`.

pub const OPEN_BRACE: u8 = 0;

pub const CLOSE_BRACE: u8 = 1;

pub const OPEN_PAREN: u8 = 2;

pub const CLOSE_PAREN: u8 = 3;

pub const OPEN_BRACKET: u8 = 4;

pub const CLOSE_BRACKET: u8 = 5;

pub const SEMICOLON: u8 = 6;

pub const COMMA: u8 = 7;

pub const DOT: u8 = 8;

pub const ASSIGN: u8 = 9;

pub const LESS: u8 = 10;

pub const GREATER: u8 = 11;

pub const NOT: u8 = 12;

pub const COMPLEMENT: u8 = 13;

pub const QUESTION: u8 = 14;

pub const COLON: u8 = 15;

pub const PLUS: u8 = 16;

pub const MINUS: u8 = 17;

pub const TIMES: u8 = 18;

pub const DIVIDE: u8 = 19;

pub const REMAINDER: u8 = 20;

pub const BIT_AND: u8 = 21;

pub const BIT_OR: u8 = 22;

pub const BIT_XOR: u8 = 23;

pub const AT: u8 = 24;

pub const EQUAL: u8 = 25;

pub const NOT_EQUAL: u8 = 26;

pub const AT_MOST: u8 = 27;

pub const AT_LEAST: u8 = 28;

pub const AND: u8 = 29;

pub const OR: u8 = 30;

pub const SHIFT_LEFT: u8 = 31;

pub const SHIFT_RIGHT: u8 = 32;

pub const UNSIGNED_SHIFT_RIGHT: u8 = 33;

pub const ADD_ASSIGN: u8 = 34;

pub const SUBTRACT_ASSIGN: u8 = 35;

pub const INCREMENT: u8 = 36;

pub const DECREMENT: u8 = 37;
