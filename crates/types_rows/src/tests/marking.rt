//! Sources in which a part stands between two marks.

use oxml_base::Span;
use std::alloc::{AllocError, Global};

/// Stands in no source.
const MARK: char = '$';

/// A source without its marks.
pub fn unmarked(alloc: Global, marked: &str) -> Result<String, AllocError> {
    let mut out = String::new(alloc);
    for c in marked.chars() {
        if c != MARK {
            out.push(c)?;
        }
    }
    Ok(out)
}

/// A source with marks around the part that has this span.
pub fn marked(alloc: Global, source: &str, span: Span) -> Result<String, AllocError> {
    let mut out = String::new(alloc);
    let mut place = 0u32;
    for c in source.chars() {
        if place == span.start {
            out.push(MARK)?;
        }
        if place == span.end {
            out.push(MARK)?;
        }
        out.push(c)?;
        place = place.saturating_add(1);
    }
    if place == span.end {
        out.push(MARK)?;
    }
    Ok(out)
}
