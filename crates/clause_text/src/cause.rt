ghost use Rattle.std.specs.Prelude.{◌≡◌};
ghost use Rattle.clause_text.specs.Cause.{cause_text};

/// What is wrong with a program's files, in the order that breaks ties at one position.
#[derive(Clone, Copy, Debug, PartialEq, Eq)]
pub enum Cause {
    NotUtf8,
    BadChar,
    OpenQuote,
    OpenComment,
    BadEscape,
    Stuck,
    TooDeep,
    NoEnd,
    BadPriority,
    BadKind,
    BadName,
    FixedOp,
    InfixAndPostfix,
    LateModule,
    BadIndicator,
    BadSpec,
    ControlHead,
    BadHead,
    NotInProfile,
    NoRoot,
    TwoModules,
    NoFile,
    NotModule,
    NotExported,
    NotDefined,
    TwoImports,
    NotCallable,
}

impl Cause {
    ghost use Rattle.clause_text.specs.Cause.{number_of};

    /// The number of the cause, 1 to 27. Errors at one position are sorted by it.
    pub fn number(self) -> u32
        ensures { result ≡ number_of self }
    {
        match self {
            Cause::NotUtf8 => 1,
            Cause::BadChar => 2,
            Cause::OpenQuote => 3,
            Cause::OpenComment => 4,
            Cause::BadEscape => 5,
            Cause::Stuck => 6,
            Cause::TooDeep => 7,
            Cause::NoEnd => 8,
            Cause::BadPriority => 9,
            Cause::BadKind => 10,
            Cause::BadName => 11,
            Cause::FixedOp => 12,
            Cause::InfixAndPostfix => 13,
            Cause::LateModule => 14,
            Cause::BadIndicator => 15,
            Cause::BadSpec => 16,
            Cause::ControlHead => 17,
            Cause::BadHead => 18,
            Cause::NotInProfile => 19,
            Cause::NoRoot => 20,
            Cause::TwoModules => 21,
            Cause::NoFile => 22,
            Cause::NotModule => 23,
            Cause::NotExported => 24,
            Cause::NotDefined => 25,
            Cause::TwoImports => 26,
            Cause::NotCallable => 27,
        }
    }
}

/// The message of the cause, as a line of errors prints it.
pub fn cause_text(cause: Cause) -> &'static str
    ensures { result.now ≡ cause_text cause }
{
    match cause {
        Cause::NotUtf8 => "byte is not UTF-8",
        Cause::BadChar => "character cannot begin a token",
        Cause::OpenQuote => "quoted item is not closed",
        Cause::OpenComment => "comment is not closed",
        Cause::BadEscape => "escape is not known",
        Cause::Stuck => "no clause goes on with this token",
        Cause::TooDeep => "term is nested deeper than 1000",
        Cause::NoEnd => "clause has no end",
        Cause::BadPriority => "operator priority is not 0 to 1200",
        Cause::BadKind => "operator type is not known",
        Cause::BadName => "operator name is not an atom or a list of atoms",
        Cause::FixedOp => "operator cannot be changed",
        Cause::InfixAndPostfix => "operator would be infix and postfix",
        Cause::LateModule => "module directive is not the first clause",
        Cause::BadIndicator => "predicate indicator is expected",
        Cause::BadSpec => "file name is expected",
        Cause::ControlHead => "control construct cannot be defined",
        Cause::BadHead => "clause head is not an atom or a compound term",
        Cause::NotInProfile => "directive is outside this profile",
        Cause::NoRoot => "no such file",
        Cause::TwoModules => "module is declared in two files",
        Cause::NoFile => "no such file",
        Cause::NotModule => "file is not a module file",
        Cause::NotExported => "predicate is not exported",
        Cause::NotDefined => "exported predicate is not defined",
        Cause::TwoImports => "predicate is imported from two modules",
        Cause::NotCallable => "goal is not callable",
    }
}
