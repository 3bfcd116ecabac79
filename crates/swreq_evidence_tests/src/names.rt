//! What the signatures of a text are called.
ghost use Rattle.std.specs.Prelude.{◌<◌, length};

use crate::worlds::world_of;
use std::alloc::{AllocError, Global};
use std::test::Fail;
use swreq_machine::lowering::FuncId;
use swreq_machine::param::ParamTable;
use swreq_machine::symbols::Text;
use swreq_query::full_name;
use swreq_text::append_bytes;

/// Appends the name of a signature as a line.
fn put_name(text: &Text<'_>, f: FuncId, out: &mut Vec<u8>) -> Result<(), AllocError>
    requires { f.place < length text.now.world.now.signatures }
{
    full_name(text, f, out)?;
    append_bytes(out, b"\n")
}

/// Appends the names of the signatures of a world, each as a line.
fn put_each_name(text: &Text<'_>, out: &mut Vec<u8>) -> Result<(), AllocError> {
    for place in 0..text.world.functions() {
        put_name(text, FuncId { place }, out)?;
    }
    Ok(())
}

/// Appends the names of the signatures of a text, over the table.
fn put_names_in(
    alloc: Global,
    text: &str,
    table: &mut ParamTable,
    out: &mut Vec<u8>,
) -> Result<(), Fail> {
    let world = world_of(alloc, text, table)?;
    Ok(put_each_name(
        &Text {
            world: &world,
            table,
        },
        out,
    )?)
}

/// Appends the names of the signatures of a text, each as a line.
fn put_names(alloc: Global, text: &str, out: &mut Vec<u8>) -> Result<(), Fail> {
    let mut table = ParamTable::new(alloc);
    put_names_in(alloc, text, &mut table, out)
}

/// A struct stands before its functions.
#[test]
fn the_function_of_a_struct_is_named_behind_it(rt: HostRuntime) -> Result<(), Fail> {
    let mut out = Vec::new(rt.alloc());
    put_names(
        rt.alloc(),
        "func f() struct S<T> { func f<U>() func g() }",
        &mut out,
    )?;
    assert_eq!(rt; out.as_slice(), b"f\nS\nS.f\nS.g\n".as_slice());
    Ok(())
}
