//! Sources with their trees and the spans of all expressions, patterns and items.

use crate::tables::Case;

/// The first and the last token of each node.
pub const SPANS: [Case; 29] = [
    ("let x = ( y )", "(let [x{4-5} = <y{10-11}>{8-13}]){0-13}"),
    (
        "let x = begin y end",
        "(let [x{4-5} = <y{14-15}>{8-19}]){0-19}",
    ),
    (
        "let x = (y : int)",
        "(let [x{4-5} = (: y{9-10} (int)){8-17}]){0-17}",
    ),
    (
        "let x = a + b * c",
        "(let [x{4-5} = (Add a{8-9} (Mul b{12-13} c{16-17}){12-17}){8-17}]){0-17}",
    ),
    (
        "let x = a; b;",
        "(let [x{4-5} = (; a{8-9} b{11-12}){8-12}]){0-12}",
    ),
    (
        "let x = f a b",
        "(let [x{4-5} = (@ f{8-9} a{10-11} b{12-13}){8-13}]){0-13}",
    ),
    ("let x = A a", "(let [x{4-5} = (A a{10-11}){8-11}]){0-11}"),
    (
        "let x = [a; b;]",
        "(let [x{4-5} = [ a{9-10} b{12-13}]{8-15}]){0-15}",
    ),
    (
        "let x = {f; g = a}",
        "(let [x{4-5} = { f=f{9-10} g=a{16-17}}{8-18}]){0-18}",
    ),
    (
        "let x = M.a.f",
        "(let [x{4-5} = (.f M.a{8-11}){8-13}]){0-13}",
    ),
    (
        "let x = a.[b]",
        "(let [x{4-5} = (.[] a{8-9} b{11-12}){8-13}]){0-13}",
    ),
    (
        "let x = if a then b else c",
        "(let [x{4-5} = (if a{11-12} b{18-19} c{25-26}){8-26}]){0-26}",
    ),
    (
        "let x = let y = a in y; z;",
        "(let [x{4-5} = (let [y{12-13} = a{16-17}] (; y{21-22} z{24-25}){21-25}){8-25}]){0-25}",
    ),
    (
        "let x = function a -> - b",
        "(let [x{4-5} = (function | a{17-18} -> (- b{24-25}){22-25}){8-25}]){0-25}",
    ),
    (
        "let x = local_ exclave_ a",
        "(let [x{4-5} = (local_ (exclave_ a{24-25}){15-25}){8-25}]){0-25}",
    ),
    ("type t = A of int ;;", "(type [t = | A (int)]){0-17}"),
    (
        "let x = fun a b -> c",
        "(let [x{4-5} = (fun a{12-13} b{14-15} -> c{19-20}){8-20}]){0-20}",
    ),
    (
        "let x = match a with b when c -> d",
        "(let [x{4-5} = (match a{14-15} | b{21-22} when c{28-29} -> d{33-34}){8-34}]){0-34}",
    ),
    (
        "let x = let borrow_ y = z in y",
        "(let [x{4-5} = (borrow_ y z y{29-30}){8-30}]){0-30}",
    ),
    (
        "let x = overwrite_ y with A z",
        "(let [x{4-5} = (overwrite_ y (A z{28-29}){26-29}){8-29}]){0-29}",
    ),
    (
        "let x = exclave_ a; b;;",
        "(let [x{4-5} = (exclave_ (; a{17-18} b{20-21}){17-21}){8-21}]){0-21}",
    ),
    (
        "let x = a :: b, c",
        "(let [x{4-5} = (, (:: a{8-9} b{13-14}){8-14} c{16-17}){8-17}]){0-17}",
    ),
    (
        "let (a, b) = c",
        "(let [<(, a{5-6} b{8-9}){5-9}>{4-10} = c{13-14}]){0-14}",
    ),
    (
        "let local_ a = b",
        "(let [local_ a{4-12} = b{15-16}]){0-16}",
    ),
    (
        "let f (local_ a : int) = b",
        "(let [f{4-5} local_ (: a{14-15} (int)){14-21} = b{25-26}]){0-26}",
    ),
    (
        "let x = function A a | [b] -> c",
        "(let [x{4-5} = (function | (| (A a{19-20}){17-20} [ b{24-25}]{23-26}){17-26} -> c{30-31}){8-31}]){0-31}",
    ),
    (
        "let x = function a :: b as c -> d",
        "(let [x{4-5} = (function | (as (:: a{17-18} b{22-23}){17-23} c){17-28} -> d{32-33}){8-33}]){0-33}",
    ),
    (
        "let x = function {f; g = a; _} -> b",
        "(let [x{4-5} = (function | { f=f{18-19} g=a{25-26} _}{17-30} -> b{34-35}){8-35}]){0-35}",
    ),
    (
        "let a = 1; type t = int",
        "(let [a{4-5} = 1{8-9}]){0-9} (type [t = (int)]){11-23}",
    ),
];
