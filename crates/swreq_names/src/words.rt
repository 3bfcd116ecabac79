// The names in a text.
ghost use Rattle.std.specs.Prelude.{◌≡◌, List, map, IfOk};
ghost use Rattle.swreq_decl.specs.declared.skeleton.Span.{Span};
ghost use Rattle.swreq_names.specs.Spaces.{word, declaration, declarations};

use crate::directory::Declaration;
use std::alloc::{AllocError, Global};
use swreq_decl::{AssocDecl, FunctionDecl, ParamDecl, ProtocolDecl, Span, StructDecl};
use swreq_text::Seq;

/// The bytes of a name.
pub fn word(text: &[u8], span: Span) -> &[u8]
    ensures { result.now ≡ word text.now span }
{
    let end = (span.end as usize).min(text.len());
    let start = (span.start as usize).min(end);
    &text[start..end]
}

/// What has a name of its own.
pub trait Named {
    ghost name_of: { Self → Span };

    fn name(&self) -> Span
        ensures { result ≡ name_of self.now };
}

impl Named for Span {
    ghost name_of = { λ s. s };

    fn name(&self) -> Span {
        *self
    }
}

impl Named for ProtocolDecl {
    ghost name_of = { λ p. p.name };

    fn name(&self) -> Span {
        self.name
    }
}

impl Named for AssocDecl {
    ghost name_of = { λ m. m.name };

    fn name(&self) -> Span {
        self.name
    }
}

impl Named for StructDecl {
    ghost name_of = { λ t. t.name };

    fn name(&self) -> Span {
        self.name
    }
}

impl Named for FunctionDecl {
    ghost name_of = { λ f. f.name };

    fn name(&self) -> Span {
        self.name
    }
}

impl Named for ParamDecl {
    ghost name_of = { λ g. g.name };

    fn name(&self) -> Span {
        self.name
    }
}

/// A declared name, with its offset.
fn declaration(alloc: Global, text: &[u8], span: Span) -> Result<Declaration, AllocError>
    ensures { IfOk result (λ d. d ≡ declaration text.now span) }
{
    let name = word(text, span).to_vec(alloc)?;
    Ok(Declaration {
        name: Seq::new(name),
        at: span.start,
    })
}

/// The names of these items, in their order.
pub fn declarations<T: Named>(
    alloc: Global,
    text: &[u8],
    items: &[T],
) -> Result<Vec<Declaration>, AllocError>
    ensures { IfOk result (λ ds. ds.items ≡ declarations text.now (map T.name_of items.now)) }
{
    let mut found = Vec::new(alloc);
    for item in items {
        found.push(declaration(alloc, text, item.name())?)?;
    }
    Ok(found)
}
