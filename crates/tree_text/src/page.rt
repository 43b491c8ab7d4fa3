use ml_tree::{Aff, ConName, Loc, Uni, Words};
use oxml_base::Span;
use std::alloc::{AllocError, Global};
use std::fmt::Write;

/// What is written so far, of a tree over this text, with spans or without.
#[derive(Drop)]
pub struct Page<'a> {
    pub out: String,
    text: &'a [u8],
    spans: bool,
}

impl<'a> Page<'a> {
    pub fn new(alloc: Global, text: &'a [u8], spans: bool) -> Page<'a> {
        Page {
            out: String::new(alloc),
            text,
            spans,
        }
    }

    pub fn put(&mut self, more: &str) -> Result<(), AllocError> {
        self.out.push_str(more)
    }

    fn bytes(&mut self, bytes: &[u8]) -> Result<(), AllocError> {
        for byte in bytes {
            self.out.push(char::from(*byte))?;
        }
        Ok(())
    }

    /// The text at a span.
    pub fn name(&mut self, span: Span) -> Result<(), AllocError> {
        match self.text.get(span.start as usize..span.end as usize) {
            Some(found) => self.bytes(found),
            None => self.put("?"),
        }
    }

    /// A span, where spans are asked for.
    pub fn extent(&mut self, span: Span) -> Result<(), AllocError> {
        if !self.spans {
            return Ok(());
        }
        let start = span.start;
        let end = span.end;
        write!(self.out, "{{{start}-{end}}}")
    }

    pub fn int(&mut self, value: i64) -> Result<(), AllocError> {
        write!(self.out, "{value}")
    }

    pub fn character(&mut self, byte: u8) -> Result<(), AllocError> {
        write!(self.out, "#{byte}")
    }

    pub fn literal(&mut self, found: &[u8]) -> Result<(), AllocError> {
        self.put("\"")?;
        self.bytes(found)?;
        self.put("\"")
    }

    pub fn constructor(&mut self, con: ConName) -> Result<(), AllocError> {
        match con {
            ConName::Named(span) => self.name(span),
            ConName::True => self.put("true"),
            ConName::False => self.put("false"),
            ConName::Unit => self.put("()"),
            ConName::Nil => self.put("[]"),
        }
    }

    /// Each word with a blank behind it.
    pub fn words(&mut self, words: Words) -> Result<(), AllocError> {
        self.put(match words.loc {
            Some(Loc::Local) => "local_ ",
            Some(Loc::Global) => "global_ ",
            Some(Loc::Regional) => "regional ",
            None => "",
        })?;
        self.put(match words.uni {
            Some(Uni::Unique) => "unique_ ",
            Some(Uni::Shared) => "shared_ ",
            None => "",
        })?;
        self.put(match words.aff {
            Some(Aff::Once) => "once_ ",
            Some(Aff::Many) => "many_ ",
            None => "",
        })
    }
}
