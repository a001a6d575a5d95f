use crate::*;
use std::io::{Read, Write};
use std::test::Fail;
use std::{fs, io};

#[test]
fn library_in_memory(rt: HostRuntime) -> Result<(), Fail> {
    let alloc = rt.alloc();
    let files = vec![in alloc;
        (String::from_str(alloc, "a")?, vec![in alloc; 1, 2, 3, 4]?),
        (String::from_str(alloc, "a")?, vec![in alloc; 9]?),
    ]?;
    let mut library = MemoryLibrary::new(files, 2, vec![in alloc; 1]?);
    let mut buf = [0; 3];
    assert_eq!(rt; library.fetch("a", 1, &mut buf), Fetch::Got(2));
    assert_eq!(rt; library.fetch("a", 0, &mut []), Fetch::Got(0));
    assert_eq!(rt; library.fetch("a", 1, &mut buf), Fetch::Failed);
    assert_eq!(rt; buf, [2, 3, 0]);
    assert_eq!(rt; library.fetch("a", 4, &mut buf), Fetch::Got(0));
    assert_eq!(rt; library.fetch("b", 0, &mut buf), Fetch::Failed);
    Ok(())
}

#[test]
fn streams_in_memory(rt: HostRuntime) -> Result<(), Fail> {
    let alloc = rt.alloc();
    let mut input = MemoryInput::new(vec![in alloc; 5, 6, 7]?, 2, vec![in alloc; 1]?);
    let mut buf = [0; 3];
    assert_eq!(rt; input.take(&mut buf), Take::Got(2));
    assert_eq!(rt; input.take(&mut buf), Take::Failed);
    assert_eq!(rt; input.take(&mut buf[2..]), Take::Got(1));
    assert_eq!(rt; input.take(&mut buf), Take::Got(0));
    assert_eq!(rt; buf, [5, 6, 7]);
    let Ok(mut output) = MemoryOutput::new(alloc, 3, 2, vec![in alloc; 1]?) else {
        panic!(rt; "no memory");
    };
    assert_eq!(rt; output.put(&buf), Put::Put(2));
    assert_eq!(rt; output.put(&buf), Put::Failed);
    assert_eq!(rt; output.put(&buf[1..]), Put::Put(1));
    assert_eq!(rt; output.put(&buf), Put::Failed);
    assert_eq!(rt; output.put(&[]), Put::Put(0));
    assert_eq!(rt; output.written(), [5, 6, 6].as_slice());
    Ok(())
}

const PATH: &str = "kt_outside_test";

#[test]
fn files(rt: HostRuntime) -> Result<(), Fail> {
    fs::write(&rt, PATH, b"abc".as_slice())?;
    let mut library = FileLibrary::new(rt);
    let mut buf = [0; 4];
    assert_eq!(rt; library.fetch(PATH, 1, &mut buf), Fetch::Got(2));
    assert_eq!(rt; buf, [98, 99, 0, 0]);
    assert_eq!(rt; library.fetch(PATH, 3, &mut buf), Fetch::Got(0));
    fs::remove_file(&rt, PATH)?;
    assert_eq!(rt; library.fetch(PATH, 0, &mut buf), Fetch::Failed);
    assert_eq!(rt; library.fetch(PATH, 0, &mut []), Fetch::Got(0));
    Ok(())
}

// A stream of which every call is refused.
#[derive(Drop)]
struct Broken;

impl Read for Broken {
    fn read(&mut self, _buf: &mut [u8]) -> io::Result<usize> {
        Err(io::Error::from(io::ErrorKind::Interrupted))
    }
}

impl Write for Broken {
    fn write(&mut self, _buf: &[u8]) -> io::Result<usize> {
        Ok(0)
    }

    fn flush(&mut self) -> io::Result<()> {
        Ok(())
    }
}

#[test]
fn standard_streams(rt: HostRuntime) {
    let mut buf = [0; 4];
    assert_eq!(rt;
        StdInput::new(b"ab".as_slice()).take(&mut buf),
        Take::Got(2)
    );
    assert_eq!(rt; StdInput::new(rt.stdin()).take(&mut []), Take::Got(0));
    assert_eq!(rt; StdInput::new(Broken).take(&mut buf), Take::Failed);
    assert_eq!(rt; StdOutput::output(rt.stdout()).put(b"out\n"), Put::Put(4));
    assert_eq!(rt; StdOutput::error(rt.stderr()).put(b"err\n"), Put::Put(4));
    assert_eq!(rt; StdOutput::over(Broken).put(b"x"), Put::Failed);
}
