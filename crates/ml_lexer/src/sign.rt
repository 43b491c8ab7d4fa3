//! The signs of the language by number: what `TokenKind::Sign` holds.

/// `(`
pub const OPEN_PAREN: u8 = 0;
/// `)`
pub const CLOSE_PAREN: u8 = 1;
/// `[`
pub const OPEN_BRACKET: u8 = 2;
/// `]`
pub const CLOSE_BRACKET: u8 = 3;
/// `{`
pub const OPEN_BRACE: u8 = 4;
/// `}`
pub const CLOSE_BRACE: u8 = 5;
/// `,`
pub const COMMA: u8 = 6;
/// `;`
pub const SEMI: u8 = 7;
/// `;;`
pub const SEMI_SEMI: u8 = 8;
/// `:`
pub const COLON: u8 = 9;
/// `::`
pub const COLON_COLON: u8 = 10;
/// `.`
pub const DOT: u8 = 11;
/// `_`
pub const UNDERSCORE: u8 = 12;
/// `+`
pub const PLUS: u8 = 13;
/// `-`
pub const MINUS: u8 = 14;
/// `*`
pub const STAR: u8 = 15;
/// `/`
pub const SLASH: u8 = 16;
/// `=`
pub const EQUAL: u8 = 17;
/// `<>`
pub const NOT_EQUAL: u8 = 18;
/// `<`
pub const LESS: u8 = 19;
/// `>`
pub const GREATER: u8 = 20;
/// `<=`
pub const LESS_EQUAL: u8 = 21;
/// `>=`
pub const GREATER_EQUAL: u8 = 22;
/// `&&`
pub const AND_AND: u8 = 23;
/// `||`
pub const OR_OR: u8 = 24;
/// `@`
pub const AT: u8 = 25;
/// `^`
pub const CARET: u8 = 26;
/// `->`
pub const ARROW: u8 = 27;
/// `|`
pub const BAR: u8 = 28;
