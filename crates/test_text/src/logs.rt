// What no clause says: that calls succeed with ample memory, and the printed texts.
use clause_text::{LogFault, print_log, print_log2, read_log, read_log2};
use psl_base::add_bytes;
use std::alloc::Global;
use std::process::Abort;
use std::test::Fail;

#[test]
fn lines_are_read_and_printed(rt: HostRuntime) -> Result<(), Fail> {
    let lemmas = b"1 0 1 2 0\n0 5 3 4 0\n";
    let log = read_log(rt.alloc(), lemmas)?;
    assert_eq!(rt; (log.lemmas(), log.words()), (2, 10));
    assert_eq!(rt; print_log(rt.alloc(), &log)?.as_slice(), lemmas.as_slice());

    let all = b"1 -2 0 1 20 0\nd 5\n0 0\n";
    let with_drops = read_log2(rt.alloc(), all)?;
    assert_eq!(rt;
        print_log2(rt.alloc(), &with_drops)?.as_slice(),
        all.as_slice()
    );
    assert_eq!(rt;
        print_log(rt.alloc(), &with_drops)?.as_slice(),
        b"1 -2 0 1 20 0\n0 0\n".as_slice()
    );
    Ok(())
}

fn fault_of(alloc: Global, rt: &impl Abort, bytes: &[u8]) -> LogFault {
    match read_log(alloc, bytes) {
        Ok(_) => panic!(rt; "a log"),
        Err(fault) => fault,
    }
}

#[test]
fn faults_have_their_lines(rt: HostRuntime) -> Result<(), Fail> {
    assert_eq!(rt;
        fault_of(rt.alloc(), &rt, b"1 0 1 0\n01 0 0\n"),
        LogFault::BadLine(2)
    );
    assert_eq!(rt;
        fault_of(rt.alloc(), &rt, b"0 0\nd 1\n"),
        LogFault::BadLine(2)
    );
    assert_eq!(rt;
        fault_of(rt.alloc(), &rt, b"0 0\n0 0"),
        LogFault::Truncated(2)
    );
    Ok(())
}

// The words of one lemma pass the limit alone.
#[test]
fn a_lemma_of_too_many_words(rt: HostRuntime) -> Result<(), Fail> {
    let mut text = Vec::new(rt.alloc());
    for _ in 0..100_000_000u32 {
        add_bytes(&mut text, b"1 ")?;
    }
    add_bytes(&mut text, b"0 0\n")?;
    assert_eq!(rt; fault_of(rt.alloc(), &rt, &text), LogFault::TooLong(1));
    Ok(())
}
