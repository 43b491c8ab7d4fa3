ghost use Rattle.std.specs.Prelude.{◌≡◌, ◌≢◌, ℕ, IfSome, IfNone};
ghost use Rattle.oxml_base.specs.Rules.{rule_number, rule_text};

/// A rule of the language that a source can violate. Each has a number and a text, which a
/// refusal prints.
#[derive(Clone, Copy, Debug, PartialEq, Eq)]
pub enum Rule {
    OutsideAlphabet,
    OpenComment,
    OpenText,
    BadEscape,
    BadNumber,
    Syntax,
    UnboundValue,
    UnboundConstructor,
    UnboundType,
    BoundTwice,
    FieldCount,
    LeftOut,
    ArgumentCount,
    UnboundVariable,
    DeclaredTwice,
    CyclicAbbreviation,
    TypesDiffer,
    InfiniteType,
    Comparison,
    NameMode,
    UsedTwice,
    FieldMode,
    ComponentMode,
    FunctionMode,
    CallMode,
    BoundMode,
    BorrowLeaves,
    ExclaveNotTail,
    OverwriteNotAllowed,
    WrittenMode,
    TopLevelMode,
    BranchMode,
    ArrowModes,
    WrittenArrow,
}

impl Rule {
    /// The rule of this number; `None` where no rule has it.
    pub fn new(n: u8) -> Option<Rule>
        ensures rule { IfSome result (λ r. rule_number r ≡ n) }
        ensures none { IfNone result ((r : Rule) → rule_number r ≢ n) }
    {
        Some(match n {
            1 => Rule::OutsideAlphabet,
            2 => Rule::OpenComment,
            3 => Rule::OpenText,
            4 => Rule::BadEscape,
            5 => Rule::BadNumber,
            10 => Rule::Syntax,
            20 => Rule::UnboundValue,
            21 => Rule::UnboundConstructor,
            22 => Rule::UnboundType,
            23 => Rule::BoundTwice,
            24 => Rule::FieldCount,
            25 => Rule::LeftOut,
            30 => Rule::ArgumentCount,
            31 => Rule::UnboundVariable,
            32 => Rule::DeclaredTwice,
            33 => Rule::CyclicAbbreviation,
            40 => Rule::TypesDiffer,
            41 => Rule::InfiniteType,
            42 => Rule::Comparison,
            61 => Rule::NameMode,
            62 => Rule::UsedTwice,
            63 => Rule::FieldMode,
            64 => Rule::ComponentMode,
            65 => Rule::FunctionMode,
            66 => Rule::CallMode,
            67 => Rule::BoundMode,
            68 => Rule::BorrowLeaves,
            69 => Rule::ExclaveNotTail,
            70 => Rule::OverwriteNotAllowed,
            71 => Rule::WrittenMode,
            72 => Rule::TopLevelMode,
            73 => Rule::BranchMode,
            75 => Rule::ArrowModes,
            76 => Rule::WrittenArrow,
            _ => return None,
        })
    }

    /// The number that a refusal prints.
    pub fn number(self) -> u8
        ensures { result ≡ rule_number self }
    {
        match self {
            Rule::OutsideAlphabet => 1,
            Rule::OpenComment => 2,
            Rule::OpenText => 3,
            Rule::BadEscape => 4,
            Rule::BadNumber => 5,
            Rule::Syntax => 10,
            Rule::UnboundValue => 20,
            Rule::UnboundConstructor => 21,
            Rule::UnboundType => 22,
            Rule::BoundTwice => 23,
            Rule::FieldCount => 24,
            Rule::LeftOut => 25,
            Rule::ArgumentCount => 30,
            Rule::UnboundVariable => 31,
            Rule::DeclaredTwice => 32,
            Rule::CyclicAbbreviation => 33,
            Rule::TypesDiffer => 40,
            Rule::InfiniteType => 41,
            Rule::Comparison => 42,
            Rule::NameMode => 61,
            Rule::UsedTwice => 62,
            Rule::FieldMode => 63,
            Rule::ComponentMode => 64,
            Rule::FunctionMode => 65,
            Rule::CallMode => 66,
            Rule::BoundMode => 67,
            Rule::BorrowLeaves => 68,
            Rule::ExclaveNotTail => 69,
            Rule::OverwriteNotAllowed => 70,
            Rule::WrittenMode => 71,
            Rule::TopLevelMode => 72,
            Rule::BranchMode => 73,
            Rule::ArrowModes => 75,
            Rule::WrittenArrow => 76,
        }
    }

    /// The text that a refusal prints behind the number.
    pub fn text(self) -> &'static str
        ensures { result.now ≡ rule_text self }
    {
        match self {
            Rule::OutsideAlphabet => "byte outside the alphabet",
            Rule::OpenComment => "comment is not closed",
            Rule::OpenText => "text is not closed",
            Rule::BadEscape => "bad escape",
            Rule::BadNumber => "bad number literal",
            Rule::Syntax => "syntax",
            Rule::UnboundValue => "unbound value",
            Rule::UnboundConstructor => "unbound constructor or field",
            Rule::UnboundType => "unbound type",
            Rule::BoundTwice => "name bound twice",
            Rule::FieldCount => "wrong number of fields",
            Rule::LeftOut => "form left out",
            Rule::ArgumentCount => "wrong number of type arguments",
            Rule::UnboundVariable => "unbound type variable",
            Rule::DeclaredTwice => "declared twice",
            Rule::CyclicAbbreviation => "type abbreviation names itself",
            Rule::TypesDiffer => "types differ",
            Rule::InfiniteType => "type would contain itself",
            Rule::Comparison => "comparison at this type",
            Rule::NameMode => "name is not usable at this mode",
            Rule::UsedTwice => "name is used several times",
            Rule::FieldMode => "field does not fit the block",
            Rule::ComponentMode => "component does not fit its name",
            Rule::FunctionMode => "function does not fit its captures or result",
            Rule::CallMode => "argument or result does not fit the call",
            Rule::BoundMode => "bound value does not fit",
            Rule::BorrowLeaves => "borrow leaves its region",
            Rule::ExclaveNotTail => "exclave is not in tail position",
            Rule::OverwriteNotAllowed => "overwrite is not allowed here",
            Rule::WrittenMode => "value does not have the written mode",
            Rule::TopLevelMode => "top-level value must be global, shared and many",
            Rule::BranchMode => "branch does not fit",
            Rule::ArrowModes => "modes of equal function types differ",
            Rule::WrittenArrow => "mode of a written function type",
        }
    }
}
