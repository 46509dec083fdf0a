ghost use Rattle.std.specs.Prelude.{◌≡◌, ◌++◌, OnOk};
ghost use Rattle.peg_text.specs.Lists.{GoesOnFrom};
ghost use Rattle.gimv_core.specs.Algebras.{FitsVal, FitsMsg};
ghost use Rattle.gimv_base.specs.Lines.{entry_line, message_line, number_line, value_line, with_lf};

use gimv_core::Gimv;
use peg_text::{NoMemory, write_decimal};
use std::alloc::Global;

/// Appends a record and its LF. Without memory some of it may have been appended.
pub fn append_record(out: &mut Vec<u8>, text: &[u8]) -> Result<(), NoMemory>
    ensures ok { OnOk result (out.new.items ≡ out.old.items ++ with_lf text.now) }
    ensures kept { GoesOnFrom out.old.items out.new.items }
{
    out.extend_from_slice(text)?;
    out.push(b'\n')?;
    Ok(())
}

/// Appends a node and its number. Without memory some of it may have been appended.
pub fn append_number(
    alloc: Global,
    out: &mut Vec<u8>,
    node: u32,
    number: u64,
) -> Result<(), NoMemory>
    ensures ok { OnOk result (out.new.items ≡ out.old.items ++ number_line node number) }
    ensures kept { GoesOnFrom out.old.items out.new.items }
{
    write_decimal(alloc, out, u64::from(node))?;
    out.push(b'\t')?;
    write_decimal(alloc, out, number)?;
    out.push(b'\n')?;
    Ok(())
}

/// Appends an entry by its column. Without memory some of it may have been appended.
pub fn append_entry(
    alloc: Global,
    out: &mut Vec<u8>,
    column: u32,
    row: u32,
    weight: u64,
) -> Result<(), NoMemory>
    ensures ok { OnOk result (out.new.items ≡ out.old.items ++ entry_line column row weight) }
    ensures kept { GoesOnFrom out.old.items out.new.items }
{
    write_decimal(alloc, out, u64::from(column))?;
    out.extend_from_slice(b"\tW ")?;
    write_decimal(alloc, out, u64::from(row))?;
    out.push(b' ')?;
    write_decimal(alloc, out, weight)?;
    out.push(b'\n')?;
    Ok(())
}

/// Appends a node, how many of its values changed, and its value. Without memory some of it may have been appended.
pub fn append_value<G: Gimv>(
    alloc: Global,
    out: &mut Vec<u8>,
    algorithm: &G,
    node: u32,
    changed: u64,
    val: &G::Val,
) -> Result<(), NoMemory>
    requires { FitsVal (G.algebra algorithm.now) val.now }
    ensures ok { OnOk result (out.new.items ≡ out.old.items ++ value_line (G.algebra algorithm.now) node changed val.now) }
    ensures kept { GoesOnFrom out.old.items out.new.items }
{
    write_decimal(alloc, out, u64::from(node))?;
    out.extend_from_slice(b"\tV ")?;
    write_decimal(alloc, out, changed)?;
    out.push(b' ')?;
    algorithm.write_val(alloc, out, val)?;
    out.push(b'\n')?;
    Ok(())
}

/// Appends a message to a row. Without memory some of it may have been appended.
pub fn append_message<G: Gimv>(
    alloc: Global,
    out: &mut Vec<u8>,
    algorithm: &G,
    row: u32,
    msg: &G::Msg,
) -> Result<(), NoMemory>
    requires { FitsMsg (G.algebra algorithm.now) msg.now }
    ensures ok { OnOk result (out.new.items ≡ out.old.items ++ message_line (G.algebra algorithm.now) row msg.now) }
    ensures kept { GoesOnFrom out.old.items out.new.items }
{
    write_decimal(alloc, out, u64::from(row))?;
    out.extend_from_slice(b"\tY ")?;
    algorithm.write_msg(alloc, out, msg)?;
    out.push(b'\n')?;
    Ok(())
}
