//! The type that declaration specifiers name (C11 6.7.2).

ghost use Rattle.std.specs.Prelude.{◌≡◌, nat_eq, [], ◌∷◌, IfOk};
ghost use Rattle.c_tree.specs.declared.expression.BaseWord.TheVariants as word;
ghost use Rattle.c_rules.specs.Specifiers as spec;
ghost use Rattle.c_tags.specs.Parts.{specified};
ghost use Rattle.c_tags.specs.Words.{narrow_rows, wide_rows};

use crate::Specified;
use crate::tags::copy_of;
use c_arithmetic::{also_const, integer, long_of, plain, unsigned_long_of};
use c_kinds::{Base, CType};
use c_scopes::State;
use c_tokens::DataModel;
use c_tree::BaseWord;
use kv_base::NoMemory;
use kv_num::IntType;
use std::alloc::Global;

/// The number of a keyword.
fn index_of(word: BaseWord) -> usize
    ensures { result ≡ spec.index_of word }
{
    match word {
        BaseWord::Void => 0,
        BaseWord::Char => 1,
        BaseWord::Short => 2,
        BaseWord::Int => 3,
        BaseWord::Long => 4,
        BaseWord::Signed => 5,
        BaseWord::Unsigned => 6,
        BaseWord::Bool => 7,
    }
}

/// How often the keyword of this number stands among keywords.
fn count_of(index: usize, words: &[BaseWord]) -> usize
    ensures { result ≡ spec.count_of index words.now }
{
    let mut count = 0;
    for word in words {
        if index_of(*word) == index {
            count += 1;
        }
    }
    count
}

/// Whether the keyword of this number stands as often in both.
fn agree(index: usize, left: &[BaseWord], right: &[BaseWord]) -> bool
    ensures { result ≡ nat_eq (spec.count_of index left.now) (spec.count_of index right.now) }
{
    count_of(index, left) == count_of(index, right)
}

/// Whether the same keywords stand in both, in any order (6.7.2p2).
#[tactic(auto, using(crate::proofs::Rows::all_agree, crate::proofs::Rows::one_differs))]
fn same_words(left: &[BaseWord], right: &[BaseWord]) -> bool
    ensures { result ≡ spec.same_words left.now right.now }
{
    for index in 0..8 {
        if !agree(index, left, right) {
            return false;
        }
    }
    true
}

/// Whether these keywords are those of a row.
fn is_row(words: &[BaseWord], row: &[BaseWord]) -> bool
    ensures { result ≡ spec.is_among words.now (row.now ∷ []) }
{
    if same_words(row, words) {
        return true;
    }
    false
}

/// Whether these keywords are those of one of two rows.
fn is_of_two(words: &[BaseWord], first: &[BaseWord], second: &[BaseWord]) -> bool
    ensures { result ≡ spec.is_among words.now (first.now ∷ second.now ∷ []) }
{
    if same_words(first, words) {
        return true;
    }
    is_row(words, second)
}

/// Whether these keywords are those of a type that `int` may follow, before which `signed` may stand: its first keywords
/// alone, after `signed`, before `int`, or both.
fn is_of_four(
    words: &[BaseWord],
    first: &[BaseWord],
    second: &[BaseWord],
    third: &[BaseWord],
    fourth: &[BaseWord],
) -> bool
    ensures { result ≡ spec.is_among words.now (first.now ∷ second.now ∷ third.now ∷ fourth.now ∷ []) }
{
    if same_words(first, words) {
        return true;
    }
    if same_words(second, words) {
        return true;
    }
    is_of_two(words, third, fourth)
}

/// The type that keywords name, up to `unsigned short`.
fn narrow_type(alloc: Global, words: &[BaseWord]) -> Option<CType>
    ensures { result ≡ spec.row_of narrow_rows words.now }
{
    if is_row(words, &[BaseWord::Void]) {
        return Some(plain(alloc, Base::Void));
    }
    if is_row(words, &[BaseWord::Bool]) {
        return Some(integer(alloc, IntType::Bool));
    }
    if is_row(words, &[BaseWord::Char]) {
        return Some(integer(alloc, IntType::Char));
    }
    if is_row(words, &[BaseWord::Signed, BaseWord::Char]) {
        return Some(integer(alloc, IntType::SChar));
    }
    if is_row(words, &[BaseWord::Unsigned, BaseWord::Char]) {
        return Some(integer(alloc, IntType::UChar));
    }
    if is_of_four(
        words,
        &[BaseWord::Short],
        &[BaseWord::Signed, BaseWord::Short],
        &[BaseWord::Short, BaseWord::Int],
        &[BaseWord::Signed, BaseWord::Short, BaseWord::Int],
    ) {
        return Some(integer(alloc, IntType::Short));
    }
    if is_of_two(
        words,
        &[BaseWord::Unsigned, BaseWord::Short],
        &[BaseWord::Unsigned, BaseWord::Short, BaseWord::Int],
    ) {
        return Some(integer(alloc, IntType::UShort));
    }
    None
}

/// Whether these keywords name `int`.
fn is_int(words: &[BaseWord]) -> bool
    ensures { result ≡ spec.is_among words.now ((word.Int ∷ []) ∷ (word.Signed ∷ []) ∷ (word.Signed ∷ word.Int ∷ []) ∷ []) }
{
    if same_words(&[BaseWord::Int], words) {
        return true;
    }
    is_of_two(
        words,
        &[BaseWord::Signed],
        &[BaseWord::Signed, BaseWord::Int],
    )
}

/// Whether these keywords name `long long`.
fn is_long_long(words: &[BaseWord]) -> bool
    ensures { result ≡ spec.is_among words.now ((word.Long ∷ word.Long ∷ []) ∷ (word.Signed ∷ word.Long ∷ word.Long ∷ []) ∷ (word.Long ∷ word.Long ∷ word.Int ∷ []) ∷ (word.Signed ∷ word.Long ∷ word.Long ∷ word.Int ∷ []) ∷ []) }
{
    is_of_four(
        words,
        &[BaseWord::Long, BaseWord::Long],
        &[BaseWord::Signed, BaseWord::Long, BaseWord::Long],
        &[BaseWord::Long, BaseWord::Long, BaseWord::Int],
        &[
            BaseWord::Signed,
            BaseWord::Long,
            BaseWord::Long,
            BaseWord::Int,
        ],
    )
}

/// Whether these keywords name `long`.
fn is_long(words: &[BaseWord]) -> bool
    ensures { result ≡ spec.is_among words.now ((word.Long ∷ []) ∷ (word.Signed ∷ word.Long ∷ []) ∷ (word.Long ∷ word.Int ∷ []) ∷ (word.Signed ∷ word.Long ∷ word.Int ∷ []) ∷ []) }
{
    is_of_four(
        words,
        &[BaseWord::Long],
        &[BaseWord::Signed, BaseWord::Long],
        &[BaseWord::Long, BaseWord::Int],
        &[BaseWord::Signed, BaseWord::Long, BaseWord::Int],
    )
}

/// The type that keywords name, from `int` on.
fn wide_type(alloc: Global, model: DataModel, words: &[BaseWord]) -> Option<CType>
    ensures { result ≡ spec.row_of (wide_rows model) words.now }
{
    if is_int(words) {
        return Some(integer(alloc, IntType::Int));
    }
    if is_of_two(
        words,
        &[BaseWord::Unsigned],
        &[BaseWord::Unsigned, BaseWord::Int],
    ) {
        return Some(integer(alloc, IntType::UInt));
    }
    if is_long(words) {
        return Some(integer(alloc, long_of(model)));
    }
    if is_of_two(
        words,
        &[BaseWord::Unsigned, BaseWord::Long],
        &[BaseWord::Unsigned, BaseWord::Long, BaseWord::Int],
    ) {
        return Some(integer(alloc, unsigned_long_of(model)));
    }
    if is_long_long(words) {
        return Some(integer(alloc, IntType::LongLong));
    }
    if is_of_two(
        words,
        &[BaseWord::Unsigned, BaseWord::Long, BaseWord::Long],
        &[
            BaseWord::Unsigned,
            BaseWord::Long,
            BaseWord::Long,
            BaseWord::Int,
        ],
    ) {
        return Some(integer(alloc, IntType::ULongLong));
    }
    None
}

/// The type that keywords name.
#[tactic(auto, using(crate::proofs::Rows::narrow_is, crate::proofs::Rows::wide_is))]
fn type_of_words(alloc: Global, model: DataModel, words: &[BaseWord]) -> Option<CType>
    ensures { result ≡ spec.row_of (spec.word_rows model) words.now }
{
    match narrow_type(alloc, words) {
        Some(ctype) => Some(ctype),
        None => wide_type(alloc, model, words),
    }
}

/// The specifiers that begin with this token name no type.
fn no_type(st: &mut State, first: usize) -> Result<Option<CType>, NoMemory>
    ensures { IfOk result (λ ctype. spec.named ctype st.new ≡ spec.no_type first st.old) }
{
    st.note(first, 24)?;
    Ok(None)
}

/// The type that keywords alone name.
fn of_words(st: &mut State, first: usize, words: &[BaseWord]) -> Result<Option<CType>, NoMemory>
    ensures { IfOk result (λ ctype. spec.named ctype st.new ≡ spec.of_words first (spec.row_of (spec.word_rows st.old.model) words.now) st.old) }
{
    match type_of_words(st.alloc(), st.model(), words) {
        Some(ctype) => Ok(Some(ctype)),
        None => {
            let none = no_type(st, first)?;
            Ok(none)
        }
    }
}

/// The type that keywords alone, or one other specifier alone, name.
#[tactic(auto, using(crate::proofs::Rows::two_others))]
fn one_type(st: &mut State, first: usize, x: &Specified) -> Result<Option<CType>, NoMemory>
    ensures { IfOk result (λ ctype. spec.named ctype st.new ≡ spec.one_type first x.now.words x.now.others st.old) }
{
    match x.others.as_slice() {
        [] => {
            let ctype = of_words(st, first, x.words.as_slice())?;
            Ok(ctype)
        }
        [ctype, more @ ..] => match more {
            [] => match x.words.as_slice() {
                [] => {
                    let ctype = copy_of(st, ctype)?;
                    Ok(ctype)
                }
                [_, ..] => {
                    let none = no_type(st, first)?;
                    Ok(none)
                }
            },
            [_, ..] => {
                let none = no_type(st, first)?;
                Ok(none)
            }
        },
    }
}

/// The type, also `const` where that is given, if there is one.
fn const_if(is_const: bool, ctype: Option<CType>) -> Option<CType>
    ensures { result ≡ spec.const_if is_const ctype }
{
    match ctype {
        Some(ctype) => Some(also_const(is_const, ctype)),
        None => None,
    }
}

/// The type that specifiers name, if they name one (6.7.2p2). They begin with this token.
pub fn type_named(st: &mut State, first: usize, x: &Specified) -> Result<Option<CType>, NoMemory>
    ensures { IfOk result (λ ctype. spec.named ctype st.new ≡ spec.type_named first (specified st.old x.now)) }
{
    let ctype = one_type(st, first, x)?;
    Ok(const_if(x.is_const, ctype))
}
