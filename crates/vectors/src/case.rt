use crate::fault::CaseFault;
use hexadecimal::decode;
use std::alloc::Global;

// A case: inputs that the designers published, and the output that was computed for them.
#[derive(Drop)]
pub struct Case {
    pub key: Vec<u8>,
    pub nonce: Vec<u8>,
    pub text: Vec<u8>,
    pub ad: Vec<u8>,
    pub sealed: Vec<u8>,
}

// What is written after `name = ` in a block of lines, in its first line of that name.
pub(crate) fn field<'a>(block: &'a str, name: &str) -> Option<&'a str> {
    block
        .lines()
        .filter_map(|line| line.split_once('='))
        .find(|(left, _)| left.trim() == name)
        .map(|(_, right)| right.trim())
}

// The bytes of a field, if it is there and in hexadecimal.
fn bytes(heap: Global, block: &str, name: &str) -> Result<Vec<u8>, CaseFault> {
    let text = field(block, name).ok_or(CaseFault::Malformed)?;
    Ok(decode(heap, text.as_bytes())?)
}

impl Case {
    // The case that a block of lines holds, if it is well formed.
    pub(crate) fn read(heap: Global, block: &str) -> Result<Case, CaseFault> {
        Ok(Case {
            key: bytes(heap, block, "Key")?,
            nonce: bytes(heap, block, "Nonce")?,
            text: bytes(heap, block, "PT")?,
            ad: bytes(heap, block, "AD")?,
            sealed: bytes(heap, block, "CT")?,
        })
    }
}
