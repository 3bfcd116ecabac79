//! Reading statements.

ghost use Rattle.std.specs.Prelude.{◌≡◌, ◌++◌, Option, codes, IfOk, IfSome};
ghost use Rattle.swreq_print.specs.swreq_derive.{Derivation.{TermStatement}, Derivation.TermRequirement.{Equals}, Derivation.TermStatement.{Requires}};
ghost use Rattle.swreq_print.specs.swreq_lexicon.Views.{IsProtocol};
ghost use Rattle.swreq_print.specs.swreq_param.{declared.ids.ProtoId.{ProtoId}, Owned.{as_term}, Terms.{Term}};
ghost use Rattle.swreq_print.specs.{Names.{Text}, Reading.{IsReadableType}, Types.{type_text}};
ghost use Rattle.swreq_lines.specs.{GoodLines.{IsReadableStatement}, LineTexts.{statement_text}, Written.{property_of, property_text, statement_meant}};

use crate::named::protocol_named;
use crate::pieces::next_word;
use crate::reader::Reader;
use crate::types::read_type;
use std::alloc::AllocError;
use swreq_print::param::{ProtoId, TypeParam};

/// A statement over type parameters by themselves.
#[derive(Drop)]
pub(crate) enum WrittenStatement {
    /// T is valid.
    Valid(TypeParam),
    /// `T : P`
    Conforms(TypeParam, ProtoId),
    /// `T : AnyObject`
    IsAnyObject(TypeParam),
    /// `T == U`
    Equals(TypeParam, TypeParam),
}

/// A statement, and the text after the word `by`.
#[derive(Drop)]
pub(crate) struct Stated<'a> {
    pub statement: WrittenStatement,
    pub rest: &'a [u8],
}

/// The requirement on a type parameter with this word after `:`.
fn property(reader: &Reader, t: TypeParam, word: &[u8]) -> WrittenStatement
    ensures { (p : Option ProtoId) → IfSome p (IsProtocol reader.now.names.now)
        → word.now ≡ property_text reader.now.names.now p
        → statement_meant result ≡ property_of (as_term t) p }
{
    if word == b"AnyObject".as_slice() {
        WrittenStatement::IsAnyObject(t)
    } else {
        WrittenStatement::Conforms(t, protocol_named(reader, word))
    }
}

/// The statement on a type parameter of which this is the text after `:`.
fn behind_colon<'a>(reader: &Reader, t: TypeParam, text: &'a [u8]) -> Stated<'a>
    ensures { (p : Option ProtoId) (rest : Text) → IfSome p (IsProtocol reader.now.names.now)
        → text.now ≡ property_text reader.now.names.now p ++ (codes " by " ++ rest)
        → (statement_meant result.statement ≡ property_of (as_term t) p)
        × (result.rest.now ≡ rest) }
{
    let word = next_word(text);
    let by = next_word(word.rest);
    Stated {
        statement: property(reader, t, word.piece),
        rest: by.rest,
    }
}

/// The statement on a type parameter of which this is the text after `==`.
fn behind_equals<'a>(
    reader: &Reader,
    t: TypeParam,
    text: &'a [u8],
) -> Result<Stated<'a>, AllocError>
    ensures { (u : Term) (rest : Text) → IsReadableType reader.now.names.now u
        → text.now ≡ type_text reader.now.names.now u ++ (codes " by " ++ rest)
        → IfOk result (λ s.
        (statement_meant s.statement ≡ Requires (Equals (as_term t) u)) × (s.rest.now ≡ rest)) }
{
    let word = next_word(text);
    let by = next_word(word.rest);
    let u = read_type(reader, word.piece)?;
    Ok(Stated {
        statement: WrittenStatement::Equals(t, u),
        rest: by.rest,
    })
}

/// The statement with which a text begins, before the word `by`.
pub(crate) fn read_statement<'a>(reader: &Reader, text: &'a [u8]) -> Result<Stated<'a>, AllocError>
    ensures { (st : TermStatement) (rest : Text) → IsReadableStatement reader.now.names.now st
        → text.now ≡ statement_text reader.now.names.now st ++ (codes " by " ++ rest)
        → IfOk result (λ s. (statement_meant s.statement ≡ st) × (s.rest.now ≡ rest)) }
{
    let subject = next_word(text);
    let mark = next_word(subject.rest);
    let t = read_type(reader, subject.piece)?;
    if mark.piece == b":".as_slice() {
        return Ok(behind_colon(reader, t, mark.rest));
    }
    if mark.piece == b"==".as_slice() {
        return behind_equals(reader, t, mark.rest);
    }
    Ok(Stated {
        statement: WrittenStatement::Valid(t),
        rest: mark.rest,
    })
}
