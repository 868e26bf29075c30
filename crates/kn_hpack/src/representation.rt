ghost use Rattle.std.specs.Prelude.{◌≡◌, ◌≤◌, ◌<◌, length, IfOk};
ghost use Rattle.kn_hpack.specs.Faults.{Gives};
ghost use Rattle.kn_hpack.specs.Blocks.{kind_of, indexed_at, name_at, literal_at, limit_at, step_at, progress};

use crate::dynamic_table::Dynamic;
use crate::fault::{HpackReason, TextError};
use crate::field::Pair;
use crate::gathered::Gathered;
use crate::integers::integer_at;
use crate::strings::string_at;
use std::alloc::Global;

/// The representations of a header block (RFC 7541, section 6).
#[derive(Clone, Copy, Drop)]
pub enum Kind {
    /// An indexed field (6.1).
    Indexed,
    /// A literal that is added to the dynamic table (6.2.1).
    Added,
    /// A new limit of the dynamic table (6.3).
    Resized,
    /// A literal that is never indexed (6.2.3).
    Never,
    /// A literal without indexing (6.2.2).
    Plain,
}

/// The representation that begins with this byte.
#[tactic(auto, unfolding(crate::specs::Blocks::kind_of))]
fn kind_from(byte: u8) -> Kind
    ensures { result ≡ kind_of byte }
{
    if byte >= 128 {
        Kind::Indexed
    } else if byte >= 64 {
        Kind::Added
    } else if byte >= 32 {
        Kind::Resized
    } else if byte >= 16 {
        Kind::Never
    } else {
        Kind::Plain
    }
}

/// The field that an index names, and the bytes after it.
#[tactic(auto, unfolding(crate::specs::Blocks::indexed_at))]
fn indexed<'a>(
    alloc: Global,
    table: &Dynamic,
    bytes: &'a [u8],
) -> Result<(Pair, &'a [u8]), TextError>
    ensures { Gives (λ x. (x.0, x.1.now)) result (indexed_at table.now bytes.now) }
{
    let (index, rest) = integer_at(bytes, 127)?;
    match table.field_at(index) {
        Some((name, value)) => {
            let field = Pair::copy_of(alloc, name, value)?;
            Ok((field, rest))
        }
        None => Err(TextError::Fault(HpackReason::Index)),
    }
}

/// A name by its index, or in text where the index is 0, and the bytes after it.
#[tactic(auto, unfolding(crate::specs::Blocks::name_at))]
fn name_of<'a>(
    alloc: Global,
    table: &Dynamic,
    bytes: &'a [u8],
    top: u8,
) -> Result<(Vec<u8>, &'a [u8]), TextError>
    requires { top ≤ 127 }
    ensures { Gives (λ x. (x.0.items, x.1.now)) result (name_at table.now top bytes.now) }
{
    let (index, rest) = integer_at(bytes, top)?;
    if index == 0 {
        return string_at(alloc, rest);
    }
    match table.field_at(index) {
        Some((name, _)) => {
            let name = Vec::from_slice(alloc, name)?;
            Ok((name, rest))
        }
        None => Err(TextError::Fault(HpackReason::Index)),
    }
}

/// A literal, and the bytes after it.
#[tactic(auto, unfolding(crate::specs::Blocks::literal_at))]
fn literal<'a>(
    alloc: Global,
    table: &Dynamic,
    bytes: &'a [u8],
    top: u8,
) -> Result<(Pair, &'a [u8]), TextError>
    requires { top ≤ 127 }
    ensures { Gives (λ x. (x.0, x.1.now)) result (literal_at table.now top bytes.now) }
{
    let (name, rest) = name_of(alloc, table, bytes, top)?;
    let (value, rest) = string_at(alloc, rest)?;
    Ok((Pair::new(name, value), rest))
}

/// A new limit of the dynamic table, and the bytes after it.
#[tactic(auto, unfolding(crate::specs::Blocks::limit_at))]
fn limit_of<'a>(fields: &Gathered, bytes: &'a [u8]) -> Result<(u32, &'a [u8]), TextError>
    ensures value { Gives (λ x. (x.0, x.1.now)) result (limit_at fields.now bytes.now) }
    ensures bound { IfOk result (λ x. x.0 ≤ 4096) }
{
    let (limit, rest) = integer_at(bytes, 31)?;
    if limit > 4096 || !fields.is_empty() {
        return Err(TextError::Fault(HpackReason::TableSize));
    }
    Ok((limit, rest))
}

/// One representation, and the bytes after it.
#[tactic(auto, unfolding(crate::specs::Blocks::step_at))]
pub fn step<'a>(
    alloc: Global,
    table: &mut Dynamic,
    fields: &mut Gathered,
    bytes: &'a [u8],
) -> Result<&'a [u8], TextError>
    requires { 0 < length bytes.now }
    ensures { Gives (λ rest. (progress table.new fields.new, rest.now)) result (step_at (progress table.old fields.old) bytes.now) }
{
    match kind_from(bytes[0]) {
        Kind::Indexed => {
            let (field, rest) = indexed(alloc, table, bytes)?;
            fields.keep(field)?;
            Ok(rest)
        }
        Kind::Added => {
            let (field, rest) = literal(alloc, table, bytes, 63)?;
            table.add(alloc, field.name(), field.value())?;
            fields.keep(field)?;
            Ok(rest)
        }
        Kind::Resized => {
            let (limit, rest) = limit_of(fields, bytes)?;
            table.resize(limit as usize);
            Ok(rest)
        }
        Kind::Never => {
            let (field, rest) = literal(alloc, table, bytes, 15)?;
            fields.keep(field)?;
            Ok(rest)
        }
        Kind::Plain => {
            let (field, rest) = literal(alloc, table, bytes, 15)?;
            fields.keep(field)?;
            Ok(rest)
        }
    }
}
