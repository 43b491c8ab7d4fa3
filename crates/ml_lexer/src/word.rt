//! The words of the language by number: what `TokenKind::Word` holds.

/// `and`
pub const AND: u8 = 0;
/// `as`
pub const AS: u8 = 1;
/// `asr`
pub const ASR: u8 = 2;
/// `begin`
pub const BEGIN: u8 = 3;
/// `borrow_`
pub const BORROW: u8 = 4;
/// `else`
pub const ELSE: u8 = 5;
/// `end`
pub const END: u8 = 6;
/// `exclave_`
pub const EXCLAVE: u8 = 7;
/// `false`
pub const FALSE: u8 = 8;
/// `fun`
pub const FUN: u8 = 9;
/// `function`
pub const FUNCTION: u8 = 10;
/// `global_`
pub const GLOBAL: u8 = 11;
/// `if`
pub const IF: u8 = 12;
/// `in`
pub const IN: u8 = 13;
/// `land`
pub const LAND: u8 = 14;
/// `let`
pub const LET: u8 = 15;
/// `local_`
pub const LOCAL: u8 = 16;
/// `lor`
pub const LOR: u8 = 17;
/// `lsl`
pub const LSL: u8 = 18;
/// `lsr`
pub const LSR: u8 = 19;
/// `lxor`
pub const LXOR: u8 = 20;
/// `many_`
pub const MANY: u8 = 21;
/// `match`
pub const MATCH: u8 = 22;
/// `mod`
pub const MOD: u8 = 23;
/// `of`
pub const OF: u8 = 24;
/// `once_`
pub const ONCE: u8 = 25;
/// `overwrite_`
pub const OVERWRITE: u8 = 26;
/// `rec`
pub const REC: u8 = 27;
/// `shared_`
pub const SHARED: u8 = 28;
/// `then`
pub const THEN: u8 = 29;
/// `true`
pub const TRUE: u8 = 30;
/// `type`
pub const TYPE: u8 = 31;
/// `unique_`
pub const UNIQUE: u8 = 32;
/// `when`
pub const WHEN: u8 = 33;
/// `with`
pub const WITH: u8 = 34;

// Words that no program uses: OCaml has them, this language leaves their forms out.

/// `assert`
pub const ASSERT: u8 = 35;
/// `class`
pub const CLASS: u8 = 36;
/// `constraint`
pub const CONSTRAINT: u8 = 37;
/// `do`
pub const DO: u8 = 38;
/// `done`
pub const DONE: u8 = 39;
/// `downto`
pub const DOWNTO: u8 = 40;
/// `exception`
pub const EXCEPTION: u8 = 41;
/// `external`
pub const EXTERNAL: u8 = 42;
/// `for`
pub const FOR: u8 = 43;
/// `functor`
pub const FUNCTOR: u8 = 44;
/// `include`
pub const INCLUDE: u8 = 45;
/// `inherit`
pub const INHERIT: u8 = 46;
/// `initializer`
pub const INITIALIZER: u8 = 47;
/// `lazy`
pub const LAZY: u8 = 48;
/// `method`
pub const METHOD: u8 = 49;
/// `module`
pub const MODULE: u8 = 50;
/// `mutable`
pub const MUTABLE: u8 = 51;
/// `new`
pub const NEW: u8 = 52;
/// `nonrec`
pub const NONREC: u8 = 53;
/// `object`
pub const OBJECT: u8 = 54;
/// `open`
pub const OPEN: u8 = 55;
/// `or`
pub const OR: u8 = 56;
/// `private`
pub const PRIVATE: u8 = 57;
/// `sig`
pub const SIG: u8 = 58;
/// `struct`
pub const STRUCT: u8 = 59;
/// `to`
pub const TO: u8 = 60;
/// `try`
pub const TRY: u8 = 61;
/// `val`
pub const VAL: u8 = 62;
/// `virtual`
pub const VIRTUAL: u8 = 63;
/// `while`
pub const WHILE: u8 = 64;
