//! The functions: their names, and how many arguments they may have.

ghost use Rattle.std.specs.Prelude.{◌≡◌, bytes_eq, find};
ghost use Rattle.std.specs.Str.{chars};
ghost use Rattle.stx_base.specs.Functions as table;
ghost use Rattle.stxpath_syntax.specs.Functions as spec;

use stx_base::Fun;

const FUNCTIONS: [Fun; 30] = [
    Fun::Name,
    Fun::LocalName,
    Fun::NamespaceUri,
    Fun::Position,
    Fun::Level,
    Fun::HasChildNodes,
    Fun::Str,
    Fun::Integer,
    Fun::Boolean,
    Fun::Not,
    Fun::True,
    Fun::False,
    Fun::Concat,
    Fun::StringJoin,
    Fun::StringLength,
    Fun::Substring,
    Fun::SubstringBefore,
    Fun::SubstringAfter,
    Fun::Contains,
    Fun::StartsWith,
    Fun::EndsWith,
    Fun::NormalizeSpace,
    Fun::Translate,
    Fun::Count,
    Fun::Empty,
    Fun::Exists,
    Fun::Sum,
    Fun::ItemAt,
    Fun::IndexOf,
    Fun::Subsequence,
];

/// The function's name.
#[tactic(auto)]
pub fn word_of(fun: Fun) -> &'static str
    ensures bytes { result.now ≡ table.word fun }
    ensures chars { chars result.now ≡ table.word fun }
{
    match fun {
        Fun::Name => "name",
        Fun::LocalName => "local-name",
        Fun::NamespaceUri => "namespace-uri",
        Fun::Position => "position",
        Fun::Level => "level",
        Fun::HasChildNodes => "has-child-nodes",
        Fun::Str => "string",
        Fun::Integer => "integer",
        Fun::Boolean => "boolean",
        Fun::Not => "not",
        Fun::True => "true",
        Fun::False => "false",
        Fun::Concat => "concat",
        Fun::StringJoin => "string-join",
        Fun::StringLength => "string-length",
        Fun::Substring => "substring",
        Fun::SubstringBefore => "substring-before",
        Fun::SubstringAfter => "substring-after",
        Fun::Contains => "contains",
        Fun::StartsWith => "starts-with",
        Fun::EndsWith => "ends-with",
        Fun::NormalizeSpace => "normalize-space",
        Fun::Translate => "translate",
        Fun::Count => "count",
        Fun::Empty => "empty",
        Fun::Exists => "exists",
        Fun::Sum => "sum",
        Fun::ItemAt => "item-at",
        Fun::IndexOf => "index-of",
        Fun::Subsequence => "subsequence",
    }
}

fn is_named(fun: Fun, name: &str) -> bool
    ensures { result ≡ bytes_eq (table.word fun) name.now }
{
    word_of(fun) == name
}

/// The first of these functions that has this name.
fn first_named(functions: &[Fun], name: &str) -> Option<Fun>
    ensures { result ≡ find (λ f. bytes_eq (table.word f) name.now) functions.now }
{
    for fun in functions {
        if is_named(*fun, name) {
            return Some(*fun);
        }
    }
    None
}

/// The function that has this name.
#[tactic(auto, unfolding(crate::specs::Functions::function_named))]
pub fn function_named(name: &str) -> Option<Fun>
    ensures { result ≡ spec.function_named name.now }
{
    first_named(&FUNCTIONS, name)
}

/// Whether a function may have so many arguments.
pub fn permits(fun: Fun, count: usize) -> bool
    ensures { result ≡ table.permits fun count }
{
    match fun {
        Fun::Position | Fun::Level | Fun::HasChildNodes | Fun::True | Fun::False => count == 0,
        Fun::Name
        | Fun::LocalName
        | Fun::NamespaceUri
        | Fun::Str
        | Fun::StringLength
        | Fun::NormalizeSpace => count <= 1,
        Fun::Integer | Fun::Boolean | Fun::Not | Fun::Count | Fun::Empty | Fun::Exists | Fun::Sum =>
            count == 1,
        Fun::StringJoin
        | Fun::SubstringBefore
        | Fun::SubstringAfter
        | Fun::Contains
        | Fun::StartsWith
        | Fun::EndsWith
        | Fun::ItemAt
        | Fun::IndexOf => count == 2,
        Fun::Substring | Fun::Subsequence => 2 <= count && count <= 3,
        Fun::Translate => count == 3,
        Fun::Concat => 2 <= count,
    }
}
