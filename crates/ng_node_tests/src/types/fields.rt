// Parts of packets, of the arguments of messages and of their answers.
use ng_base::Name;
use ng_message::{put_name, put_u16, put_u32, put_u64};
use std::alloc::Global;
use std::test::Fail;

/// A part of a packet, of a message's arguments or of an answer. Numbers lie with their lowest byte first.
#[derive(Clone, Copy)]
pub(super) enum Field {
    /// These bytes.
    Bytes(&'static [u8]),
    /// So many bytes that are zero.
    Zeros(usize),
    /// A name, in 32 bytes.
    Name(&'static [u8]),
    /// A number of 16 bits.
    U16(u16),
    /// A number of 32 bits.
    U32(u32),
    /// Numbers of 64 bits.
    U64(&'static [u64]),
}

fn put_zeros(bytes: &mut Vec<u8>, count: usize) -> Result<(), Fail> {
    for _ in 0..count {
        bytes.push(0)?;
    }
    Ok(())
}

fn put_numbers(bytes: &mut Vec<u8>, numbers: &[u64]) -> Result<(), Fail> {
    for number in numbers {
        put_u64(bytes, *number)?;
    }
    Ok(())
}

fn put(bytes: &mut Vec<u8>, field: &Field) -> Result<(), Fail> {
    match field {
        Field::Bytes(more) => bytes.extend_from_slice(more)?,
        Field::Zeros(count) => put_zeros(bytes, *count)?,
        Field::Name(name) => put_name(bytes, Some(&Name::read(name)?))?,
        Field::U16(number) => put_u16(bytes, *number)?,
        Field::U32(number) => put_u32(bytes, *number)?,
        Field::U64(numbers) => put_numbers(bytes, numbers)?,
    }
    Ok(())
}

/// The bytes of the fields, one behind another.
pub(super) fn laid_out(alloc: Global, fields: &[Field]) -> Result<Vec<u8>, Fail> {
    let mut bytes = Vec::new(alloc);
    for field in fields {
        put(&mut bytes, field)?;
    }
    Ok(bytes)
}
