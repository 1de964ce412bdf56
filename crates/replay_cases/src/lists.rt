//! Lists of records.

use frames::{RecordFault, read_record};
use rrv_model::record::{Item, Record};
use std::alloc::{AllocError, Global};
use test_guests::bytes::bytes_of;

/// The texts of records, each a line of words of hex digits.
pub fn texts_of(alloc: Global, lines: &str) -> Option<Vec<Vec<u8>>> {
    let mut texts = Vec::new(alloc);
    for line in lines.lines() {
        texts.push(bytes_of(alloc, line)?).ok()?;
    }
    Some(texts)
}

/// The texts, one behind the other.
pub fn joined(alloc: Global, texts: &[Vec<u8>]) -> Result<Vec<u8>, AllocError> {
    let mut bytes = Vec::new(alloc);
    for text in texts {
        bytes.extend_from_slice(text)?;
    }
    Ok(bytes)
}

/// The records whose texts the bytes are.
pub fn read_list(alloc: Global, bytes: &[u8]) -> Result<Vec<Record>, RecordFault> {
    let mut records = Vec::new(alloc);
    let mut left = bytes;
    // each record takes some bytes
    for _ in 0..bytes.len() {
        if left.is_empty() {
            break;
        }
        let (record, rest) = read_record(alloc, left)?;
        let Ok(()) = records.push(record) else {
            return Err(RecordFault::Memory);
        };
        left = rest;
    }
    Ok(records)
}

/// The items as the records of guest 0.
pub fn numbered(alloc: Global, items: Vec<Item>) -> Option<Vec<Record>> {
    let mut records = Vec::new(alloc);
    for item in items {
        let index = u32::try_from(records.len()).ok()?;
        let record = Record {
            guest: 0,
            index,
            item,
        };
        records.push(record).ok()?;
    }
    Some(records)
}
