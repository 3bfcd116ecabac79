//! The text, line after line.

ghost use Rattle.std.specs.Prelude.{◌≡◌, ◌≤◌, ◌++◌, IfOk, OnOk};
ghost use Rattle.swreq_gen.specs.Generated.{each_line, generated, protocol_line, query_lines};

use crate::lines::{lengthen, put_function, put_last, put_protocol, put_queries};
use std::alloc::{AllocError, Global};

/// The generated text of n, from 1 to 100. It has n protocols, each with an associated type that conforms to the next protocol (that of the
/// last one to the first), a function with two generic parameters, and 4n + 1 queries.
pub fn text(alloc: Global, n: u32) -> Result<Vec<u8>, AllocError>
    requires { (1 ≤ n) × (n ≤ 100) }
    ensures { IfOk result (λ text. text.items ≡ generated n) }
{
    let mut out = Vec::new(alloc);
    put_each_protocol(&mut out, n)?;
    put_function(&mut out)?;
    put_each_query(alloc, &mut out, n)?;
    put_last(&mut out)?;
    Ok(out)
}

fn put_each_protocol(out: &mut Vec<u8>, n: u32) -> Result<(), AllocError>
    requires { n ≤ 100 }
    ensures { OnOk result (out.new.items ≡ out.old.items ++ each_line (protocol_line n) n) }
{
    for k in 0..n {
        put_protocol(out, n, k + 1)?;
    }
    Ok(())
}

fn put_each_query(alloc: Global, out: &mut Vec<u8>, n: u32) -> Result<(), AllocError>
    requires { n ≤ 100 }
    ensures { OnOk result (out.new.items ≡ out.old.items ++ each_line (query_lines n) n) }
{
    let mut chain = Vec::new(alloc);
    for k in 0..n {
        lengthen(&mut chain, k + 1)?;
        put_queries(out, n, k + 1, &chain)?;
    }
    Ok(())
}
