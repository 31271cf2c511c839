//! Lists of fields.

ghost use Rattle.std.specs.Prelude.{◌≡◌, ◌≤◌, ◌+◌, ◌*◌, ◌++◌, ◌&&◌, nat_le, ℕ, List, [], length, IfOk, OnOk, vec_len};
ghost use Rattle.cx_wire.specs.Format.{Format, u8, only, counted, each_read, each_spell};
ghost use Rattle.cx_field.specs.Reading.{Reads, Gives};

use crate::fault::ReadFault;
use crate::reader::ByteReader;
use cx_base::NoMemory;
use std::alloc::Global;

/// What may be in a list, where the values before it are known.
pub trait Items {
    type Item;

    /// How the next value is spelled.
    ghost format: { Self → List Self.Item → Format Self.Item };

    /// How many bytes a value takes at most.
    ghost most: { ℕ };

    /// Reads the next value.
    fn next_from(
        &self,
        alloc: Global,
        before: &[Self::Item],
        reader: &mut ByteReader<'_>,
    ) -> Result<Self::Item, ReadFault>
        ensures { Reads (format self.now before.now) reader.old result reader.new };

    /// Appends a value, whatever is before it.
    fn put_next(&self, item: &Self::Item, out: &mut Vec<u8>) -> Result<(), NoMemory>
        ensures bytes { OnOk result ((before : List Self.Item)
            → out.new.items ≡ out.old.items ++ (format self.now before).spell item.now) }
        ensures room { OnOk result (length out.new.items ≤ length out.old.items + most) };
}

/// Reads `count` values.
pub fn items_from<I: Items>(
    alloc: Global,
    items: &I,
    count: usize,
    reader: &mut ByteReader<'_>,
) -> Result<Vec<I::Item>, ReadFault>
where
    I::Item: Drop,
    ensures read { Gives (λ v. v.items) result (each_read (I.format items.now) [] count reader.old)
        reader.new }
    ensures len { IfOk result (λ v. vec_len v ≡ count) }
{
    let mut list = Vec::with_capacity(alloc, count)?;
    for _ in 0..count {
        let item = items.next_from(alloc, list.as_slice(), reader)?;
        list.push(item)?;
    }
    Ok(list)
}

// How many values a list has.
fn count_from(least: u8, most: u8, reader: &mut ByteReader<'_>) -> Result<usize, ReadFault>
    ensures { Reads (only (λ n. nat_le least n && nat_le n most) u8) reader.old result reader.new }
{
    let left = reader.left();
    let count = reader.u8()?;
    if count < least || count > most {
        return Err(ReadFault::Bad { left });
    }
    Ok(count as usize)
}

/// Reads values, and how many there are before them, in a byte.
pub fn list_from<I: Items>(
    alloc: Global,
    items: &I,
    least: u8,
    most: u8,
    reader: &mut ByteReader<'_>,
) -> Result<Vec<I::Item>, ReadFault>
where
    I::Item: Drop,
    ensures read { Gives (λ v. v.items) result
        ((counted (only (λ n. nat_le least n && nat_le n most) u8) (I.format items.now)).read
        reader.old) reader.new }
    ensures least { IfOk result (λ v. least ≤ vec_len v) }
    ensures most { IfOk result (λ v. vec_len v ≤ most) }
{
    let count = count_from(least, most, reader)?;
    items_from(alloc, items, count, reader)
}

/// Appends values.
pub fn put_items<I: Items>(items: &I, list: &[I::Item], out: &mut Vec<u8>) -> Result<(), NoMemory>
    ensures bytes { OnOk result
        (out.new.items ≡ out.old.items ++ each_spell (I.format items.now) [] list.now) }
    ensures room { OnOk result
        (length out.new.items ≤ length out.old.items + length list.now * I.most) }
{
    for item in list {
        items.put_next(item, out)?;
    }
    Ok(())
}
