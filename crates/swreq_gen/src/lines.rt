//! The lines of the generated text, one by one.

ghost use Rattle.std.specs.{Prelude.{◌≡◌, ◌+◌, ◌-◌, ◌<◌, ◌≤◌, ◌++◌, OnOk}, Fmt.{decimal}};
ghost use Rattle.swreq_gen.specs.Generated.{next_of, chain, dot, protocol_line, function_line, same_line, chain_line, member_line, query_lines, last_line};

use std::alloc::AllocError;
use swreq_text::{append_bytes, append_number};

// The number of the protocol that the k-th of n protocols leads to.
fn next_of(n: u32, k: u32) -> u32
    requires { (k ≤ n) × (n ≤ 100) }
    ensures { result ≡ next_of n k }
{
    if k == n { 1 } else { k + 1 }
}

fn put_number(out: &mut Vec<u8>, number: u32) -> Result<(), AllocError>
    ensures { OnOk result (out.new.items ≡ out.old.items ++ decimal number) }
{
    append_number(out, u64::from(number))
}

pub(crate) fn put_protocol(out: &mut Vec<u8>, n: u32, k: u32) -> Result<(), AllocError>
    requires { (k ≤ n) × (n ≤ 100) }
    ensures { OnOk result (out.new.items ≡ out.old.items ++ protocol_line n k) }
{
    append_bytes(out, b"protocol L".as_slice())?;
    put_number(out, k)?;
    append_bytes(out, b" { associatedtype A".as_slice())?;
    put_number(out, k)?;
    append_bytes(out, b": L".as_slice())?;
    put_number(out, next_of(n, k))?;
    append_bytes(out, b" }\n".as_slice())
}

pub(crate) fn put_function(out: &mut Vec<u8>) -> Result<(), AllocError>
    ensures { OnOk result (out.new.items ≡ out.old.items ++ function_line) }
{
    append_bytes(
        out,
        b"func f<T: L1, U: L1>() where T.A1 == U.A1 { }\n".as_slice(),
    )
}

// Asks whether the chain of T conforms to the m-th protocol.
fn put_chain(out: &mut Vec<u8>, path: &[u8], m: u32) -> Result<(), AllocError>
    ensures { OnOk result (out.new.items ≡ out.old.items ++ chain_line path.now m) }
{
    append_bytes(out, b"query f(T.".as_slice())?;
    append_bytes(out, path)?;
    append_bytes(out, b" : L".as_slice())?;
    put_number(out, m)?;
    append_bytes(out, b")\n".as_slice())
}

// Asks whether the chains of T and of U are equal.
fn put_same(out: &mut Vec<u8>, path: &[u8]) -> Result<(), AllocError>
    ensures { OnOk result (out.new.items ≡ out.old.items ++ same_line path.now) }
{
    append_bytes(out, b"query f(T.".as_slice())?;
    append_bytes(out, path)?;
    append_bytes(out, b" == U.".as_slice())?;
    append_bytes(out, path)?;
    append_bytes(out, b")\n".as_slice())
}

// Asks whether the k-th member of T conforms to the first protocol.
fn put_member(out: &mut Vec<u8>, k: u32) -> Result<(), AllocError>
    ensures { OnOk result (out.new.items ≡ out.old.items ++ member_line k) }
{
    append_bytes(out, b"query f(T.A".as_slice())?;
    put_number(out, k)?;
    append_bytes(out, b" : L1)\n".as_slice())
}

// Writes the four queries of k. `path` is the chain of k members.
pub(crate) fn put_queries(out: &mut Vec<u8>, n: u32, k: u32, path: &[u8]) -> Result<(), AllocError>
    requires range { (k ≤ n) × (n ≤ 100) }
    requires its_chain { path.now ≡ chain k }
    ensures { OnOk result (out.new.items ≡ out.old.items ++ query_lines n k) }
{
    put_chain(out, path, next_of(n, k))?;
    put_same(out, path)?;
    put_chain(out, path, k)?;
    put_member(out, k)
}

pub(crate) fn put_last(out: &mut Vec<u8>) -> Result<(), AllocError>
    ensures { OnOk result (out.new.items ≡ out.old.items ++ last_line) }
{
    append_bytes(out, b"query f()\n".as_slice())
}

// Writes the dot before the k-th member of a chain. There is none before the first.
fn put_dot(path: &mut Vec<u8>, k: u32) -> Result<(), AllocError>
    ensures { OnOk result (path.new.items ≡ path.old.items ++ dot k) }
{
    if k > 1 {
        append_bytes(path, b".".as_slice())
    } else {
        Ok(())
    }
}

// Makes the chain of k members from the chain of k - 1.
pub(crate) fn lengthen(path: &mut Vec<u8>, k: u32) -> Result<(), AllocError>
    requires from { 1 ≤ k }
    requires before { path.old.items ≡ chain (k - 1) }
    ensures { OnOk result (path.new.items ≡ chain k) }
{
    put_dot(path, k)?;
    append_bytes(path, b"A".as_slice())?;
    put_number(path, k)
}
