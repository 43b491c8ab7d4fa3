//! Large sources.

/// 200,000 tokens of many small items.
pub const ITEMS: [&str; 1] = ["«28571 let f x = [x]»"];

/// An item with 20,000 binders.
pub const BINDERS: [&str; 1] = ["let x = 0«19999  and x~ = 0»"];

/// 10,000 items, each of which has the type of the one before.
pub const CHAIN: [&str; 1] = ["let x0 = 0«9999  let x~ = x#»"];

/// Names that are used many times: a function of an earlier item, and a parameter that has no type yet.
pub const USES: [&str; 2] = [
    "let id x = x let f = («20000 id 0; »0)",
    "let f x = («20000 x; »x)",
];

/// The greatest type, many times, and types as deep as they can be written.
pub const GREAT: [&str; 3] = [
    "let t = 0«1998 , 0» let f = («50 t; »0)",
    "let f = «997 [»0«997 ]»",
    "let f = «996 fun x -> »0",
];

/// The last of more than 20,000 steps makes a type too large.
pub const LATE: [&str; 1] = ["let t x = (x«665 , x») let f g = (t g; «20000 0; »$g 0$)"];
