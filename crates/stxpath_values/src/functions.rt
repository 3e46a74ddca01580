ghost use Rattle.std.specs.Prelude.{◌≡◌, ◌<◌, ◌^◌, true, pos, [], ◌∷◌, length, is_some, nat_eq, map, slice_get, option_map, IfOk, IfErr};
ghost use Rattle.std.specs.List.{concat as concat_all, starts_with as list_starts_with, ends_with as list_ends_with};
ghost use Rattle.std.specs.Ordering.{int_eq};
ghost use Rattle.std.specs.Str.{chars};
ghost use Rattle.stx_base.specs.declared.expression.Cmp.TheVariants.{Eq};
ghost use Rattle.stxpath_values.specs.declared.fault.EvalStop.TheVariants as stop;
ghost use Rattle.stxpath_values.specs.declared.value.Atom.TheVariants.{Whole};
ghost use Rattle.stxpath_values.specs.Outcome.{IsAnswer, and_then, each};
ghost use Rattle.stxpath_values.specs.Conversion.{as_text, as_one, atom_text, atom_whole};
ghost use Rattle.stxpath_values.specs.Comparison.{pair_holds};
ghost use Rattle.stxpath_values.specs.Places.{at_places, is_within, places_of, before_word, after_word, first_occurrence};
ghost use Rattle.stxpath_values.specs.Words as words;
ghost use Rattle.stxpath_values.specs.Functions as spec;
ghost use Rattle.stxpath_values.specs.Functions.{called};
ghost use Rattle.stxpath_values.specs.Lent.{atom_of, atoms_of, sequence_of, IsSequence};

use crate::convert::{one_of, text_of, whole_of};
use crate::fault::{EvalFault, EvalStop};
use crate::joins::join_lent;
use crate::lent::{AtomRef, Atoms, Sequence};
use crate::value::Atom;
use crate::{lists, places, texts};
use itoa::Buffer;
use std::alloc::Global;
use stx_base::{Fun, Limits, List, Memory, Text};

/// Whether a function sees no node and takes so many arguments here: where one that is left out means the current node, it
/// is handed in.
pub fn takes(fun: Fun, arguments: usize) -> bool
    ensures { result ≡ spec.takes fun arguments }
{
    match fun {
        Fun::True | Fun::False => arguments == 0,
        Fun::Str | Fun::Integer | Fun::StringLength | Fun::NormalizeSpace => arguments == 1,
        Fun::Count | Fun::Empty | Fun::Exists | Fun::Sum => arguments == 1,
        Fun::StringJoin | Fun::SubstringBefore | Fun::SubstringAfter => arguments == 2,
        Fun::Contains | Fun::StartsWith | Fun::EndsWith => arguments == 2,
        Fun::ItemAt | Fun::IndexOf => arguments == 2,
        Fun::Translate => arguments == 3,
        Fun::Substring | Fun::Subsequence => (2..=3).contains(&arguments),
        Fun::Concat => arguments >= 2,
        _ => false,
    }
}

/// The value of a function that sees no node. Its arguments are converted from left to right before anything is computed.
pub fn call(
    alloc: Global,
    fun: Fun,
    args: &List<List<Atom>>,
    limits: &Limits,
) -> Result<List<Atom>, EvalStop>
    requires { spec.takes fun (length args.now) ≡ true }
    ensures { IsAnswer result (called limits.now fun args.now) }
{
    let lent = lent_lists(alloc, args)?;
    let value = call_lent(alloc, fun, &lent, limits)?;
    Ok(value.into_list(alloc)?)
}

fn lent_lists(alloc: Global, args: &List<List<Atom>>) -> Result<Vec<Sequence<'_>>, Memory>
    ensures { IfOk result (λ lent. map sequence_of lent.items ≡ args.now) }
{
    let mut lent = Vec::new(alloc);
    for arg in args.as_slice() {
        lent.push(Sequence::Lent(Atoms::List(arg.as_slice())))?;
    }
    Ok(lent)
}

/// As `call`, of arguments that may be lent. What the value has of them is lent too.
pub fn call_lent<'a>(
    alloc: Global,
    fun: Fun,
    args: &[Sequence<'a>],
    limits: &Limits,
) -> Result<Sequence<'a>, EvalStop>
    requires { spec.takes fun (length args.now) ≡ true }
    ensures { IsSequence result (called limits.now fun (map sequence_of args.now)) }
{
    match fun {
        Fun::Str => string(alloc, first(args)),
        Fun::Integer => integer(argument(args, 0)),
        Fun::True => Ok(truth(true)),
        Fun::False => Ok(truth(false)),
        Fun::Concat => concat(alloc, args, limits),
        Fun::StringJoin => string_join(alloc, argument(args, 0), argument(args, 1), limits),
        Fun::StringLength => string_length(argument(args, 0)),
        Fun::Substring => substring(
            alloc,
            argument(args, 0),
            argument(args, 1),
            optional(args, 2),
        ),
        Fun::SubstringBefore => substring_before(alloc, argument(args, 0), argument(args, 1)),
        Fun::SubstringAfter => substring_after(alloc, argument(args, 0), argument(args, 1)),
        Fun::Contains => contains(argument(args, 0), argument(args, 1)),
        Fun::StartsWith => starts_with(argument(args, 0), argument(args, 1)),
        Fun::EndsWith => ends_with(argument(args, 0), argument(args, 1)),
        Fun::NormalizeSpace => normalize_space(alloc, argument(args, 0)),
        Fun::Translate => translate(
            alloc,
            argument(args, 0),
            argument(args, 1),
            argument(args, 2),
        ),
        Fun::Count => Ok(whole(argument(args, 0).len() as u64)),
        Fun::Empty => Ok(truth(argument(args, 0).len() == 0)),
        Fun::Exists => Ok(truth(argument(args, 0).len() != 0)),
        Fun::Sum => sum(argument(args, 0)),
        Fun::ItemAt => item_at(alloc, first(args), argument(args, 1)),
        Fun::IndexOf => index_of(alloc, argument(args, 0), argument(args, 1), limits),
        Fun::Subsequence => subsequence(
            alloc,
            first(args),
            argument(args, 1),
            optional(args, 2),
            limits,
        ),
        _ => unreachable!(),
    }
}

fn argument<'a>(args: &'a [Sequence<'_>], i: usize) -> Atoms<'a>
    requires { i < length args.now }
    ensures { atoms_of result ≡ spec.argument (map sequence_of args.now) i }
{
    args[i].lent()
}

/// The first argument, of which a part may be lent.
fn first<'v, 'a>(args: &'v [Sequence<'a>]) -> &'v Sequence<'a>
    requires { 0 < length args.now }
    ensures { sequence_of result.now ≡ spec.argument (map sequence_of args.now) 0 }
{
    &args[0]
}

/// An argument that may be left out.
fn optional<'a>(args: &'a [Sequence<'_>], i: usize) -> Option<Atoms<'a>>
    ensures { option_map atoms_of result ≡ slice_get (map sequence_of args.now) i }
{
    match args.get(i) {
        Some(argument) => Some(argument.lent()),
        None => None,
    }
}

fn one<'a>(atom: AtomRef<'a>) -> Sequence<'a>
    ensures { sequence_of result ≡ atom_of atom.entry ∷ [] }
{
    Sequence::Lent(Atoms::One(atom))
}

fn truth<'a>(b: bool) -> Sequence<'a>
    ensures { Ok (sequence_of result) ≡ spec.truth_value b }
{
    one(AtomRef::Truth(b))
}

/// A count as a whole number.
fn whole<'a>(n: u64) -> Sequence<'a>
    requires { n < 2 ^ 63 }
    ensures { Ok (sequence_of result) ≡ spec.whole_value (pos n) }
{
    one(AtomRef::Whole(n as i64))
}

fn string<'a>(alloc: Global, text: &Sequence<'a>) -> Result<Sequence<'a>, EvalStop>
    ensures { IsSequence result (spec.with_text (sequence_of text.now) spec.text_value) }
{
    if let Sequence::Lent(Atoms::One(AtomRef::Chars(text))) = text {
        return Ok(one(AtomRef::Chars(text)));
    }
    let mut buffer = Buffer::new();
    let text = Text::of(alloc, text_of(text.lent(), &mut buffer)?)?;
    Ok(Sequence::Text(text))
}

fn integer<'a>(n: Atoms<'_>) -> Result<Sequence<'a>, EvalStop>
    ensures { IsSequence result (spec.with_whole (atoms_of n.entry) spec.whole_value) }
{
    let n = whole_of(n)?;
    Ok(one(AtomRef::Whole(n)))
}

fn concat<'a>(
    alloc: Global,
    args: &[Sequence<'_>],
    limits: &Limits,
) -> Result<Sequence<'a>, EvalStop>
    ensures { IsSequence result (and_then (each as_text (map sequence_of args.now)) (λ parts. spec.made_text limits.now (concat_all parts))) }
{
    if texts::is_concat_longer(limits.text, args)? {
        return Err(EvalStop::Fault(EvalFault::TextTooLong));
    }
    let text = texts::concat(alloc, args)?;
    Ok(Sequence::Text(text))
}

fn string_join<'a>(
    alloc: Global,
    items: Atoms<'_>,
    separator: Atoms<'_>,
    limits: &Limits,
) -> Result<Sequence<'a>, EvalStop>
    ensures { IsSequence result (spec.with_text (atoms_of separator.entry) (λ between. spec.made_text limits.now (words.joined between (map atom_text (atoms_of items.entry))))) }
{
    let mut buffer = Buffer::new();
    let separator = text_of(separator, &mut buffer)?;
    let text = join_lent(alloc, separator, items, limits)?;
    Ok(Sequence::Text(text))
}

fn string_length<'a>(text: Atoms<'_>) -> Result<Sequence<'a>, EvalStop>
    ensures { IsSequence result (spec.with_text (atoms_of text.entry) (λ cs. spec.whole_value (pos (length cs)))) }
{
    let mut buffer = Buffer::new();
    let text = text_of(text, &mut buffer)?;
    Ok(whole(texts::count(text)))
}

/// An argument that may be left out, as a whole number.
fn whole_or_none(n: Option<Atoms<'_>>) -> Result<Option<i64>, EvalFault>
    ensures { result ≡ spec.with_whole_or_none (option_map atoms_of n.entry) Ok }
{
    match n {
        Some(n) => Ok(Some(whole_of(n)?)),
        None => Ok(None),
    }
}

fn substring<'a>(
    alloc: Global,
    text: Atoms<'_>,
    start: Atoms<'_>,
    len: Option<Atoms<'_>>,
) -> Result<Sequence<'a>, EvalStop>
    ensures { IsSequence result (spec.with_text (atoms_of text.entry) (λ cs. spec.with_whole (atoms_of start.entry) (λ from. spec.with_whole_or_none (option_map atoms_of len.entry) (λ n. spec.text_value (at_places (is_within from n) cs))))) }
{
    let mut buffer = Buffer::new();
    let text = text_of(text, &mut buffer)?;
    let start = whole_of(start)?;
    let len = whole_or_none(len)?;
    // A text has no more characters than bytes.
    let bounds = places::selected(start, len, text.len());
    let part = places::chars_between(alloc, text, bounds)?;
    Ok(Sequence::Text(part))
}

fn substring_before<'a>(
    alloc: Global,
    text: Atoms<'_>,
    word: Atoms<'_>,
) -> Result<Sequence<'a>, EvalStop>
    ensures { IsSequence result (spec.with_text (atoms_of text.entry) (λ cs. spec.with_text (atoms_of word.entry) (λ w. spec.text_value (before_word w cs)))) }
{
    let (mut first, mut second) = (Buffer::new(), Buffer::new());
    let text = text_of(text, &mut first)?;
    let word = text_of(word, &mut second)?;
    let part = Text::of(alloc, places::before(text, word))?;
    Ok(Sequence::Text(part))
}

fn substring_after<'a>(
    alloc: Global,
    text: Atoms<'_>,
    word: Atoms<'_>,
) -> Result<Sequence<'a>, EvalStop>
    ensures { IsSequence result (spec.with_text (atoms_of text.entry) (λ cs. spec.with_text (atoms_of word.entry) (λ w. spec.text_value (after_word w cs)))) }
{
    let (mut first, mut second) = (Buffer::new(), Buffer::new());
    let text = text_of(text, &mut first)?;
    let word = text_of(word, &mut second)?;
    let part = Text::of(alloc, places::after(text, word))?;
    Ok(Sequence::Text(part))
}

fn contains<'a>(text: Atoms<'_>, word: Atoms<'_>) -> Result<Sequence<'a>, EvalStop>
    ensures { IsSequence result (spec.with_text (atoms_of text.entry) (λ cs. spec.with_text (atoms_of word.entry) (λ w. spec.truth_value (is_some (first_occurrence w cs))))) }
{
    let (mut first, mut second) = (Buffer::new(), Buffer::new());
    let text = text_of(text, &mut first)?;
    let word = text_of(word, &mut second)?;
    Ok(truth(places::contains(text, word)))
}

fn starts_with<'a>(text: Atoms<'_>, word: Atoms<'_>) -> Result<Sequence<'a>, EvalStop>
    ensures { IsSequence result (spec.with_text (atoms_of text.entry) (λ cs. spec.with_text (atoms_of word.entry) (λ w. spec.truth_value (list_starts_with nat_eq cs w)))) }
{
    let (mut first, mut second) = (Buffer::new(), Buffer::new());
    let text = text_of(text, &mut first)?;
    let word = text_of(word, &mut second)?;
    Ok(truth(places::starts_with(text, word)))
}

fn ends_with<'a>(text: Atoms<'_>, word: Atoms<'_>) -> Result<Sequence<'a>, EvalStop>
    ensures { IsSequence result (spec.with_text (atoms_of text.entry) (λ cs. spec.with_text (atoms_of word.entry) (λ w. spec.truth_value (list_ends_with nat_eq cs w)))) }
{
    let (mut first, mut second) = (Buffer::new(), Buffer::new());
    let text = text_of(text, &mut first)?;
    let word = text_of(word, &mut second)?;
    Ok(truth(places::ends_with(text, word)))
}

fn normalize_space<'a>(alloc: Global, text: Atoms<'_>) -> Result<Sequence<'a>, EvalStop>
    ensures { IsSequence result (spec.with_text (atoms_of text.entry) (λ cs. spec.text_value (words.normalized cs))) }
{
    let mut buffer = Buffer::new();
    let text = text_of(text, &mut buffer)?;
    let made = texts::normalized(alloc, text)?;
    Ok(Sequence::Text(made))
}

fn translate<'a>(
    alloc: Global,
    text: Atoms<'_>,
    from: Atoms<'_>,
    to: Atoms<'_>,
) -> Result<Sequence<'a>, EvalStop>
    ensures { IsSequence result (spec.with_text (atoms_of text.entry) (λ cs. spec.with_text (atoms_of from.entry) (λ old. spec.with_text (atoms_of to.entry) (λ new. spec.text_value (words.translation old new cs))))) }
{
    let (mut first, mut second, mut third) = (Buffer::new(), Buffer::new(), Buffer::new());
    let text = text_of(text, &mut first)?;
    let from = text_of(from, &mut second)?;
    let to = text_of(to, &mut third)?;
    let made = texts::translation(alloc, text, from, to)?;
    Ok(Sequence::Text(made))
}

fn sum<'a>(items: Atoms<'_>) -> Result<Sequence<'a>, EvalStop>
    ensures { IsSequence result (and_then (each atom_whole (atoms_of items.entry)) (λ zs. spec.whole_value (spec.total zs))) }
{
    let total = lists::total(items)?;
    Ok(one(AtomRef::Whole(total)))
}

fn item_at<'a>(alloc: Global, items: &Sequence<'a>, n: Atoms<'_>) -> Result<Sequence<'a>, EvalStop>
    ensures { IsSequence result (spec.with_whole (atoms_of n.entry) (λ p. Ok (at_places (int_eq p) (sequence_of items.now)))) }
{
    let n = whole_of(n)?;
    let bounds = places::selected(n, Some(1), items.lent().len());
    let item = items.part(alloc, bounds)?;
    Ok(item)
}

fn index_of<'a>(
    alloc: Global,
    items: Atoms<'_>,
    one: Atoms<'_>,
    limits: &Limits,
) -> Result<Sequence<'a>, EvalStop>
    ensures { IsSequence result (and_then (as_one (atoms_of one.entry)) (λ x. and_then (each (λ y. pair_holds Eq y x) (atoms_of items.entry)) (λ holds. spec.limited_list limits.now (map (λ p. Whole (pos p)) (places_of holds))))) }
{
    let one = one_of(one)?;
    let made = lists::equal_places(alloc, items, one)?;
    if made.len() as u64 > limits.sequence as u64 {
        return Err(EvalStop::Fault(EvalFault::SequenceTooLong));
    }
    Ok(Sequence::List(made))
}

fn subsequence<'a>(
    alloc: Global,
    items: &Sequence<'a>,
    start: Atoms<'_>,
    len: Option<Atoms<'_>>,
    limits: &Limits,
) -> Result<Sequence<'a>, EvalStop>
    ensures { IsSequence result (spec.with_whole (atoms_of start.entry) (λ from. spec.with_whole_or_none (option_map atoms_of len.entry) (λ n. spec.limited_list limits.now (at_places (is_within from n) (sequence_of items.now))))) }
{
    let start = whole_of(start)?;
    let len = whole_or_none(len)?;
    let bounds = places::selected(start, len, items.lent().len());
    if (bounds.to - bounds.from) as u64 > limits.sequence as u64 {
        return Err(EvalStop::Fault(EvalFault::SequenceTooLong));
    }
    let part = items.part(alloc, bounds)?;
    Ok(part)
}
