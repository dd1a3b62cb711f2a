// What no clause says: that a call succeeds with ample memory, and the text itself.
use cert_text::{print_cert, print_cert_1, print_inductive};
use cert_theory::{Certificate, InductiveCert};
use clause_text::read_log2;
use clauses::Clauses;
use std::test::Fail;

#[test]
fn certificates_are_printed(rt: HostRuntime) -> Result<(), Fail> {
    let certificate = Certificate {
        assertion: 3,
        visits: 0,
        window: 12,
        base: read_log2(rt.alloc(), b"1 -2 0 1 20 0\n-1 0 2 0\nd 21\n0 1 22 0\n")?,
        induction: read_log2(rt.alloc(), b"0 4 5 0\n")?,
    };
    assert_eq!(rt;
        print_cert(rt.alloc(), &certificate)?.as_slice(),
        b"pslc-cert 2\nassertion 3\nvisits 0\nwindow 12\nlive 2\nbase\n1 -2 0 1 20 0\n-1 0 2 0\nd 21\n0 1 22 0\ninduction\n0 4 5 0\nend\n".as_slice()
    );
    assert_eq!(rt;
        print_cert_1(rt.alloc(), &certificate)?.as_slice(),
        b"pslc-cert 1\nassertion 3\nvisits 0\nwindow 12\nbase\n1 -2 0 1 20 0\n-1 0 2 0\n0 1 22 0\ninduction\n0 4 5 0\nend\n".as_slice()
    );
    Ok(())
}

#[test]
fn certificates_of_clauses_are_printed(rt: HostRuntime) -> Result<(), Fail> {
    let mut clauses = Clauses::new(rt.alloc());
    clauses.push(&[1, -3])?;
    clauses.push(&[])?;
    let certificate = InductiveCert {
        assertion: 4,
        visits: 2,
        clauses,
        initial: read_log2(rt.alloc(), b"0 4 5 0\n")?,
        step: read_log2(rt.alloc(), b"1 -2 0 1 20 0\n-1 0 2 0\nd 21\n0 1 22 0\n")?,
        bad: read_log2(rt.alloc(), b"0 7 0\n")?,
    };
    assert_eq!(rt;
        print_inductive(rt.alloc(), &certificate)?.as_slice(),
        b"pslc-cert 3\nassertion 4\nvisits 2\nlive 2\nclauses\n1 -3 0\n0\ninitial\n0 4 5 0\nstep\n1 -2 0 1 20 0\n-1 0 2 0\nd 21\n0 1 22 0\nbad\n0 7 0\nend\n".as_slice()
    );
    Ok(())
}
