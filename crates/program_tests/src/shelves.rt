//! The shelves of `io_ports`, called through their public calls.
use io_ports::{Fault, HostShelf, MemoryShelf, Shelf};
use std::test::Fail;
use std::{env, fs, process};

// Whether a load gave these bytes.
fn gave(answer: Result<Vec<u8>, Fault>, bytes: &[u8]) -> bool {
    match answer {
        Ok(found) => found.as_slice() == bytes,
        Err(_) => false,
    }
}

// Whether the shelf has a file of that name with these bytes.
fn has(shelf: &MemoryShelf, name: &str, bytes: &[u8]) -> bool {
    match shelf.file(name) {
        Some(found) => found == bytes,
        None => false,
    }
}

#[test]
fn memory_keeps_files_and_output(rt: HostRuntime) -> Result<(), Fail> {
    let mut shelf = MemoryShelf::new(rt.alloc(), &[])?;
    shelf.put("in", b"abc")?;
    assert!(rt; gave(shelf.load(rt.alloc(), "in", 3), b"abc"));
    assert_eq!(rt; shelf.load(rt.alloc(), "in", 2).err(), Some(Fault::TooLong));
    assert_eq!(rt; shelf.load(rt.alloc(), "out", 3).err(), Some(Fault::Failed));
    assert_eq!(rt; shelf.store("out", b"de"), Ok(()));
    assert_eq!(rt; shelf.store("in", b""), Ok(()));
    assert_eq!(rt; shelf.say(b"one "), Ok(()));
    assert_eq!(rt; shelf.say(b"two"), Ok(()));
    assert!(rt; has(&shelf, "out", b"de"));
    assert!(rt; has(&shelf, "in", b""));
    assert!(rt; shelf.file("other").is_none());
    assert_eq!(rt; shelf.said(), b"one two".as_slice());
    Ok(())
}

// Calls 0, 2, 4 and 6 are to fail, and call 1 finds no file. `put` is no call.
#[test]
fn memory_fails_where_it_is_told_to(rt: HostRuntime) -> Result<(), Fail> {
    let mut shelf = MemoryShelf::new(rt.alloc(), &[6, 4, 2, 0])?;
    shelf.put("in", b"abc")?;
    assert_eq!(rt; shelf.load(rt.alloc(), "in", 3).err(), Some(Fault::Failed));
    assert_eq!(rt;
        shelf.load(rt.alloc(), "missing", 3).err(),
        Some(Fault::Failed)
    );
    assert_eq!(rt; shelf.store("in", b"new"), Err(Fault::Failed));
    assert_eq!(rt; shelf.say(b"kept"), Ok(()));
    assert_eq!(rt; shelf.say(b"lost"), Err(Fault::Failed));
    assert!(rt; gave(shelf.load(rt.alloc(), "in", 3), b"abc"));
    assert_eq!(rt; shelf.load(rt.alloc(), "in", 2).err(), Some(Fault::Failed));
    assert!(rt; has(&shelf, "in", b"abc"));
    assert_eq!(rt; shelf.said(), b"kept".as_slice());
    Ok(())
}

#[test]
fn the_host_keeps_a_file(rt: HostRuntime) -> Result<(), Fail> {
    let id = process::id(rt.process());
    let name = format!(in rt.alloc(); "io_ports-{id}")?;
    let path = env::temp_dir(&rt)?.join(rt.alloc(), name.as_str())?;
    let mut shelf = HostShelf::new(&rt);
    assert_eq!(rt; shelf.store(path.as_str(), b"a shelf"), Ok(()));
    assert!(rt; gave(shelf.load(rt.alloc(), path.as_str(), 7), b"a shelf"));
    assert_eq!(rt;
        shelf.load(rt.alloc(), path.as_str(), 6).err(),
        Some(Fault::TooLong)
    );
    assert_eq!(rt; shelf.store(path.as_str(), b""), Ok(()));
    assert!(rt; gave(shelf.load(rt.alloc(), path.as_str(), 0), b""));
    assert_eq!(rt; shelf.say(b""), Ok(()));
    fs::remove_file(&rt, path.as_str())?;
    assert_eq!(rt;
        shelf.load(rt.alloc(), path.as_str(), 7).err(),
        Some(Fault::Failed)
    );
    Ok(())
}
