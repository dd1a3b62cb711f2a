// A number for each clause, by which it is looked up. Clauses with one number are told apart where they are compared.

/// The number of a clause: a hash in the manner of Fowler, Noll and Vo, over literals.
pub(crate) fn fingerprint(clause: &[i32]) -> u64 {
    let mut hash: u64 = 0xcbf2_9ce4_8422_2325;
    for literal in clause {
        let code = 2 * u64::from(literal.unsigned_abs()) + u64::from(*literal < 0);
        hash = (hash ^ code).wrapping_mul(0x0000_0100_0000_01b3);
        hash ^= hash >> 29;
    }
    hash
}
