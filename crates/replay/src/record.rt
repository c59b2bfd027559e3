// What is read: an operation's number, and the numbers and the table that it is asked of.
use std::array;
use std::io::{self, ErrorKind, Read};
use std::num::f64_from_bits_with_nan;

#[derive(Clone, Copy)]
pub(crate) struct Record {
    pub operation: u64,
    pub a: u64,
    pub b: u64,
    pub c: u64,
    pub table: [u64; 12],
}

impl From<&[u8; 128]> for Record {
    fn from(bytes: &[u8; 128]) -> Record {
        let (words, _) = bytes.as_chunks::<8>();
        let word = |place: usize| u64::from_le_bytes(words[place]);
        Record {
            operation: word(0),
            a: word(1),
            b: word(2),
            c: word(3),
            table: array::from_fn(|i| word(i + 4)),
        }
    }
}

impl Record {
    // One record, or none at the end of the input.
    pub(crate) fn read<R: Read>(input: &mut R) -> io::Result<Option<Record>> {
        let mut bytes = [0u8; 128];
        match input.read_exact(&mut bytes) {
            Ok(()) => Ok(Some(Record::from(&bytes))),
            Err(e) if e.kind() == ErrorKind::UnexpectedEof => Ok(None),
            Err(e) => Err(e),
        }
    }

    // The low byte of each of the table's words.
    pub(crate) fn bytes(&self) -> [u8; 12] {
        self.table.map(|word| (word & 0xff) as u8)
    }

    // The low thirty-two bits of each.
    pub(crate) fn numbers(&self) -> [u32; 12] {
        self.table.map(low_bits)
    }

    // The thirty-two bits above the low byte of each.
    pub(crate) fn numbers_above(&self) -> [u32; 12] {
        self.table.map(|word| low_bits(word >> 8))
    }

    // Each as the pattern of a value.
    pub(crate) fn values(&self) -> [f64; 12] {
        self.table.map(|word| f64_from_bits_with_nan(word))
    }
}

pub(crate) fn low_bits(word: u64) -> u32 {
    (word & 0xffff_ffff) as u32
}
