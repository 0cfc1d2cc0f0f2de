//! How the tests read a document.
use fiat_json::{ReadFault, read_program};
use std::alloc::Global;
use word_program::Program;

/// What is read from the bytes of a document. No test has one of more than 1,048,576 bytes.
pub fn read(alloc: Global, bytes: &[u8]) -> Result<Program, ReadFault> {
    if 1_048_576 < bytes.len() {
        return Err(ReadFault::Memory);
    }
    read_program(alloc, bytes)
}
