//! A source with the types of its nodes and names.

use hm_infer::{InferErr, infer};
use ml_decls::check_decls;
use ml_parser::PRELUDE;
use ml_tree::Scoped;
use ml_types::Decls;
use ml_typing::Typed;
use source_reading::{Answer, resolved};
use std::alloc::{AllocError, Global};
use std::test::Fail;

/// What inference answers for a source.
#[derive(Drop)]
pub struct Inference {
    /// The text of the file and the prelude behind it.
    pub text: Vec<u8>,
    pub scoped: Scoped,
    pub decls: Decls,
    pub answer: Result<Typed, InferErr>,
}

/// The text over which the spans of a file's program count.
fn text_of(alloc: Global, file: &str) -> Result<Vec<u8>, AllocError> {
    let mut text = Vec::from_slice(alloc, file.as_bytes())?;
    text.extend_from_slice(PRELUDE)?;
    Ok(text)
}

/// The types of a file whose names and declarations are good.
pub fn inferred(alloc: Global, file: &str) -> Result<Inference, Fail> {
    let Answer::Found(scoped) = resolved(alloc, file.as_bytes())? else {
        return Err("refused before its declarations")?;
    };
    let text = text_of(alloc, file)?;
    let Ok((decls, table)) = check_decls(alloc, text.as_slice(), &scoped) else {
        return Err("refused for its declarations")?;
    };
    let answer = infer(alloc, &scoped, &decls, table);
    Ok(Inference {
        text,
        scoped,
        decls,
        answer,
    })
}
