//! The names of all refusals, with their numbers.
ghost use Rattle.std.specs.Prelude.{◌≡◌};
ghost use Rattle.answers.specs.AnswerText.{number_of, name_of};

/// The name of a refusal, as an answer gives it.
#[derive(Clone, Copy, Debug, PartialEq, Eq)]
pub enum Code {
    BadJson,
    BadRequest,
    BadPath,
    BadValue,
    TooDeep,
    BadQuery,
    EmptyUpdate,
    Overlap,
    TooLarge,
    UnknownToken,
    NoSession,
    SessionOpen,
    TooManySessions,
    NotAdmin,
    Leaving,
    TooManyActions,
    BadTokens,
    NotLeaving,
    DuplicateId,
    NoListener,
    TooManyListeners,
    BadRulesJson,
    BadRulesShape,
    BadExpression,
    NotInProfile,
    TypeError,
    UnknownName,
    TooManyRules,
    ReadDenied,
    WriteDenied,
    ValidateDenied,
    TreeFull,
    NoMemory,
    Spent,
}

impl Code {
    /// Its number in an answer.
    pub fn number(self) -> u64
        ensures { result ≡ number_of self }
    {
        match self {
            Code::BadJson => 101,
            Code::BadRequest => 102,
            Code::BadPath => 103,
            Code::BadValue => 104,
            Code::TooDeep => 105,
            Code::BadQuery => 106,
            Code::EmptyUpdate => 107,
            Code::Overlap => 108,
            Code::TooLarge => 109,
            Code::UnknownToken => 201,
            Code::NoSession => 202,
            Code::SessionOpen => 203,
            Code::TooManySessions => 204,
            Code::NotAdmin => 205,
            Code::Leaving => 206,
            Code::TooManyActions => 207,
            Code::BadTokens => 208,
            Code::NotLeaving => 209,
            Code::DuplicateId => 301,
            Code::NoListener => 302,
            Code::TooManyListeners => 303,
            Code::BadRulesJson => 401,
            Code::BadRulesShape => 402,
            Code::BadExpression => 403,
            Code::NotInProfile => 404,
            Code::TypeError => 405,
            Code::UnknownName => 406,
            Code::TooManyRules => 407,
            Code::ReadDenied => 501,
            Code::WriteDenied => 502,
            Code::ValidateDenied => 503,
            Code::TreeFull => 504,
            Code::NoMemory => 601,
            Code::Spent => 602,
        }
    }

    /// Its name in an answer.
    pub fn name(self) -> &'static str
        ensures { result.now ≡ name_of self }
    {
        match self {
            Code::BadJson => "BadJson",
            Code::BadRequest => "BadRequest",
            Code::BadPath => "BadPath",
            Code::BadValue => "BadValue",
            Code::TooDeep => "TooDeep",
            Code::BadQuery => "BadQuery",
            Code::EmptyUpdate => "EmptyUpdate",
            Code::Overlap => "Overlap",
            Code::TooLarge => "TooLarge",
            Code::UnknownToken => "UnknownToken",
            Code::NoSession => "NoSession",
            Code::SessionOpen => "SessionOpen",
            Code::TooManySessions => "TooManySessions",
            Code::NotAdmin => "NotAdmin",
            Code::Leaving => "Leaving",
            Code::TooManyActions => "TooManyActions",
            Code::BadTokens => "BadTokens",
            Code::NotLeaving => "NotLeaving",
            Code::DuplicateId => "DuplicateId",
            Code::NoListener => "NoListener",
            Code::TooManyListeners => "TooManyListeners",
            Code::BadRulesJson => "BadRulesJson",
            Code::BadRulesShape => "BadRulesShape",
            Code::BadExpression => "BadExpression",
            Code::NotInProfile => "NotInProfile",
            Code::TypeError => "TypeError",
            Code::UnknownName => "UnknownName",
            Code::TooManyRules => "TooManyRules",
            Code::ReadDenied => "ReadDenied",
            Code::WriteDenied => "WriteDenied",
            Code::ValidateDenied => "ValidateDenied",
            Code::TreeFull => "TreeFull",
            Code::NoMemory => "NoMemory",
            Code::Spent => "Spent",
        }
    }
}
