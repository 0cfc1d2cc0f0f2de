//! SHA-256 of the messages that FIPS 180-4 gives as examples, and of none.
use journal_text::digest;
use std::alloc::{AllocError, Global};
use std::test::Fail;

const EMPTY: &str = "e3b0c44298fc1c149afbf4c8996fb92427ae41e4649b934ca495991b7852b855";

const ABC: &str = "ba7816bf8f01cfea414140de5dae2223b00361a396177a9cb410ff61f20015ad";

const LONG: &str = "248d6a61d20638b8e5c026930c3e6039a33ce45964ff2167f6ecedd419db06c1";

fn is_digest(alloc: Global, message: &str, expected: &str) -> Result<bool, AllocError> {
    let mut text = String::new(alloc);
    for byte in digest(message.as_bytes()) {
        text.push_str(format!(in alloc; "{byte:02x}")?.as_str())?;
    }
    Ok(text.as_str() == expected)
}

#[test]
fn messages_have_their_digests(rt: HostRuntime) -> Result<(), Fail> {
    let long = "abcdbcdecdefdefgefghfghighijhijkijkljklmklmnlmnomnopnopq";
    assert!(rt; is_digest(rt.alloc(), "", EMPTY)?);
    assert!(rt; is_digest(rt.alloc(), "abc", ABC)?);
    assert!(rt; is_digest(rt.alloc(), long, LONG)?);
    Ok(())
}
