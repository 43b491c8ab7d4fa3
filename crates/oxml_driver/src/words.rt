ghost use Rattle.std.specs.Prelude.{◌≡◌, List, ℕ, IfSome, IfNone};
ghost use Rattle.oxml_driver.specs.Words.{is_value, texts_of, IsBuild};

/// The command `build FILE -o OUT`.
#[derive(Clone, Copy, Debug)]
pub struct Build<'a> {
    /// The name of the source.
    pub file: &'a str,
    /// The name that the image is saved under.
    pub out: &'a str,
}

impl<'a> Build<'a> {
    /// What the words say; `None` exactly where they are not `build FILE -o OUT`.
    pub fn read(words: &[&'a str]) -> Option<Build<'a>>
        ensures some { IfSome result (λ build. IsBuild (texts_of words.now) build.file.now build.out.now) }
        ensures none { IfNone result ((file out : List ℕ) → IsBuild (texts_of words.now) file out → ⊥) }
    {
        match words {
            ["build", file, "-o", out] if is_value(file) && is_value(out) => Some(Build {
                file,
                out,
            }),
            _ => None,
        }
    }
}

/// Whether a word is a value: it does not begin with `-`, or is just that.
fn is_value(word: &str) -> bool
    ensures { result ≡ is_value word.now }
{
    !(word.starts_with("-") && word.len() > 1)
}
