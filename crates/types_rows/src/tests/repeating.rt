//! Long sources, written shortly: `«3 ab»` stands for `ababab`.

use std::alloc::Global;
use std::fmt::Write;
use std::test::Fail;

/// The text of a short form. In what is repeated `#` is the number of the copy, from 0 on, and `~` the
/// next number.
pub fn repeated(alloc: Global, short: &str) -> Result<String, Fail> {
    let mut out = String::new(alloc);
    let mut first = true;
    for piece in short.split('«') {
        if first {
            out.push_str(piece)?;
        } else {
            add_piece(&mut out, piece)?;
        }
        first = false;
    }
    Ok(out)
}

/// Appends the copies that a piece begins with, and what stands behind them.
fn add_piece(out: &mut String, piece: &str) -> Result<(), Fail> {
    let Some((inside, behind)) = piece.split_once('»') else {
        return Err("no end of a repetition")?;
    };
    let Some((count, text)) = inside.split_once(' ') else {
        return Err("no count of a repetition")?;
    };
    let Ok(count) = count.parse::<u32>() else {
        return Err("no number before a repetition")?;
    };
    for number in 0..count {
        add_copy(out, text, number)?;
    }
    out.push_str(behind)?;
    Ok(())
}

/// Appends the copy of this number.
fn add_copy(out: &mut String, text: &str, number: u32) -> Result<(), Fail> {
    for c in text.chars() {
        match c {
            '#' => write!(out, "{number}")?,
            '~' => write!(out, "{}", number.saturating_add(1))?,
            _ => out.push(c)?,
        }
    }
    Ok(())
}
