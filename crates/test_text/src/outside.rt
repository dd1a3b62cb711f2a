use psl_base::{
    Bytes, DirShelf, Failed, File, Files, MemShelf, MemSink, NoMemory, Numbers, ReadAllFault,
    Shelf, Sink, StdSink, plain_decimal, put_all, read_all,
};
use std::alloc::Global;
use std::fs;
use std::test::Fail;

/// A shelf of these files, each a name and a content.
fn shelf_of(
    alloc: Global,
    files: &[(&str, &[u8])],
    names: u32,
    bytes: u32,
    fail: &[u32],
) -> Result<MemShelf, NoMemory> {
    let mut all = Files::new(alloc);
    for (name, content) in files {
        all.push(File {
            name: Bytes::from_slice(alloc, name.as_bytes())?,
            content: Bytes::from_slice(alloc, content)?,
        })?;
    }
    MemShelf::new(
        alloc,
        &all,
        names,
        bytes,
        &Numbers::from_slice(alloc, fail)?,
    )
}

/// Creates a name and adds two pieces to it. The answer is that to the second.
fn save<S: Shelf>(shelf: &mut S, name: &str, first: &[u8], second: &[u8]) -> Result<usize, Failed> {
    shelf.create(name)?;
    shelf.append(first)?;
    shelf.append(second)
}

#[test]
fn reads_whole_or_says_why(rt: HostRuntime) -> Result<(), Fail> {
    let alloc = rt.alloc();
    let cases: [(&str, u64, &[u32], Result<&[u8], ReadAllFault>); 9] = [
        ("a", 5, &[], Ok(b"hello")),
        ("a", 100, &[4], Ok(b"hello")),
        ("empty", 0, &[], Ok(b"")),
        ("a", 4, &[], Err(ReadAllFault::TooLong)),
        ("a", 0, &[], Err(ReadAllFault::TooLong)),
        ("b", 5, &[], Err(ReadAllFault::ReadFault)),
        ("a", 5, &[1], Err(ReadAllFault::ReadFault)),
        ("a", 5, &[2], Err(ReadAllFault::ReadFault)),
        ("a", 5, &[3], Err(ReadAllFault::ReadFault)),
    ];
    for (name, limit, fail, want) in &cases {
        assert!(rt; *limit < 1000);
        let mut shelf = shelf_of(alloc, &[("a", b"hello"), ("empty", b"")], 0, 0, fail)?;
        let got = read_all(alloc, &mut shelf, name, *limit);
        let shown = match &got {
            Ok(bytes) => Ok(bytes.as_slice()),
            Err(fault) => Err(*fault),
        };
        assert!(rt; shown == *want, "{name} with {limit}");
    }
    Ok(())
}

#[test]
fn reads_again_after_a_fault_in_mid_stream(rt: HostRuntime) -> Result<(), Fail> {
    let alloc = rt.alloc();
    let mut content = Vec::new(alloc);
    for i in 0..200_000u32 {
        content.push((i % 251) as u8)?;
    }
    let mut shelf = shelf_of(alloc, &[("long", content.as_slice())], 0, 0, &[4])?;
    assert!(rt;
        matches!(
            read_all(alloc, &mut shelf, "long", 200_000),
            Err(ReadAllFault::ReadFault)
        )
    );
    assert!(rt; read_all(alloc, &mut shelf, "long", 200_000)?.as_slice() == content.as_slice());
    Ok(())
}

#[test]
fn puts_all_or_fails(rt: HostRuntime) -> Result<(), Fail> {
    let alloc = rt.alloc();
    let mut sink = MemSink::new(alloc, 6, &Numbers::from_slice(alloc, &[2])?)?;
    let steps: [(&[u8], Result<(), Failed>, &[u8]); 6] = [
        (b"abc", Ok(()), b"abc"),
        (b"d", Err(Failed), b"abc"),
        (b"defg", Err(Failed), b"abc"),
        (b"", Ok(()), b"abc"),
        (b"def", Ok(()), b"abcdef"),
        (b"g", Err(Failed), b"abcdef"),
    ];
    for (bytes, want, written) in &steps {
        assert_eq!(rt; put_all(&mut sink, bytes), *want);
        assert!(rt; sink.bytes() == *written);
    }
    Ok(())
}

#[test]
fn shelf_writes_within_its_room(rt: HostRuntime) -> Result<(), Fail> {
    let alloc = rt.alloc();
    let mut shelf = shelf_of(alloc, &[("a", b"old"), ("b", b"kept")], 1, 3, &[])?;
    let saves: [(&str, &[u8], &[u8], Result<usize, Failed>); 4] = [
        ("c", b"x", b"y", Ok(1)),
        ("d", b"", b"", Err(Failed)),
        ("c", b"xy", b"z", Err(Failed)),
        ("a", b"ne", b"w", Ok(1)),
    ];
    for (name, first, second, want) in &saves {
        assert_eq!(rt; save(&mut shelf, name, first, second), *want);
    }
    let contents: [(&str, Option<&[u8]>); 4] = [
        ("a", Some(b"new")),
        ("b", Some(b"kept")),
        ("c", Some(b"xy")),
        ("d", None),
    ];
    for (name, want) in &contents {
        assert!(rt; shelf.content(name) == *want, "{name}");
    }
    assert!(rt; read_all(alloc, &mut shelf, "a", 5)?.as_slice() == b"new".as_slice());
    Ok(())
}

#[test]
fn files_of_the_system(rt: HostRuntime) -> Result<(), Fail> {
    let alloc = rt.alloc();
    let mut shelf = DirShelf::new(&rt);
    assert_eq!(rt; save(&mut shelf, "psl_base.test", b"ab", b"c"), Ok(1));
    let content = read_all(alloc, &mut shelf, "psl_base.test", 3)?;
    fs::remove_file(&rt, "psl_base.test")?;
    assert!(rt; content.as_slice() == b"abc".as_slice());
    assert!(rt;
        matches!(
            read_all(alloc, &mut shelf, "psl_base.absent", 3),
            Err(ReadAllFault::ReadFault)
        )
    );
    assert_eq!(rt; put_all(&mut StdSink::new(rt.stdout()), b"put\n"), Ok(()));
    Ok(())
}

#[test]
fn numbers_without_leading_zeros(rt: HostRuntime) {
    let cases: [(&[u8], Option<u64>); 8] = [
        (b"0", Some(0)),
        (b"7", Some(7)),
        (b"100", Some(100)),
        (b"101", None),
        (b"07", None),
        (b"00", None),
        (b"", None),
        (b"1x", None),
    ];
    for (text, want) in &cases {
        assert_eq!(rt; plain_decimal(100, text), *want);
    }
}
