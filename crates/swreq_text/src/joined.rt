//! The texts of a list, with a separator between them.

ghost use Rattle.std.specs.{Prelude.{◌≡◌, ◌++◌, ℕ, List, OnErr, OnOk, map}, List.{All}};
ghost use Rattle.swreq_text.specs.Joined.{GrewByPart, followed, joined};

use crate::append_bytes;
use std::alloc::AllocError;

/// Prints things of one kind, each as one text.
pub trait Print<T> {
    /// The text of a thing.
    ghost text: { Self → T → List ℕ };

    /// Which things have a text.
    ghost fits: { Self → T → Type 0 };

    /// Writes the text of the item at the end of the list. If memory runs out, the first bytes of it may stand there.
    fn put(&self, out: &mut Vec<u8>, item: &T) -> Result<(), AllocError>
        requires { fits self.now item.now }
        ensures ok { OnOk result (out.new.items ≡ out.old.items ++ text self.now item.now) }
        ensures err { OnErr result
            (GrewByPart out.old.items (text self.now item.now) out.new.items) };
}

/// Writes the texts of the items, with the separator between each two. If memory runs out, the first bytes of that may stand at
/// the end.
pub fn put_joined<T, P: Print<T>>(
    out: &mut Vec<u8>,
    printer: &P,
    separator: &[u8],
    items: &[T],
) -> Result<(), AllocError>
    requires { All (P.fits printer.now) items.now }
    ensures ok { OnOk result (out.new.items
        ≡ out.old.items ++ joined separator.now (map (P.text printer.now) items.now)) }
    ensures err { OnErr result
        (GrewByPart out.old.items
        (joined separator.now (map (P.text printer.now) items.now)) out.new.items) }
{
    match items {
        [] => Ok(()),
        [first, rest @ ..] => {
            printer.put(out, first)?;
            put_followed(out, printer, separator, rest)
        }
    }
}

// The texts of the items, each after the separator.
fn put_followed<T, P: Print<T>>(
    out: &mut Vec<u8>,
    printer: &P,
    separator: &[u8],
    items: &[T],
) -> Result<(), AllocError>
    requires { All (P.fits printer.now) items.now }
    ensures ok { OnOk result (out.new.items
        ≡ out.old.items ++ followed separator.now (map (P.text printer.now) items.now)) }
    ensures err { OnErr result
        (GrewByPart out.old.items
        (followed separator.now (map (P.text printer.now) items.now)) out.new.items) }
{
    for item in items {
        put_after(out, printer, separator, item)?;
    }
    Ok(())
}

// Writes the separator, and after it the text of the item.
#[tactic(auto, using(crate::proofs::Grown::none_grew, crate::proofs::Grown::grew_next))]
fn put_after<T, P: Print<T>>(
    out: &mut Vec<u8>,
    printer: &P,
    separator: &[u8],
    item: &T,
) -> Result<(), AllocError>
    requires { P.fits printer.now item.now }
    ensures ok { OnOk result
        (out.new.items ≡ out.old.items ++ (separator.now ++ P.text printer.now item.now)) }
    ensures err { OnErr result
        (GrewByPart out.old.items (separator.now ++ P.text printer.now item.now) out.new.items) }
{
    append_bytes(out, separator)?;
    printer.put(out, item)
}
