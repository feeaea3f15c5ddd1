// Tests of the crate assignment, which would be proved twice if they stood in it.
#![tactic(auto)]

#[cfg(test)]
mod tests {
    use assignment::balance::rebalance;
    use assignment::counts::{NONE, counts};
    use assignment::moves::moves;
    use fault::Fault;
    use std::test::Fail;

    // A quota of 65,536 does not fit 16 bits.
    #[test]
    fn one_server_has_all(rt: HostRuntime) -> Result<(), Fail> {
        let mut all = vec![in rt.alloc(); NONE; 65536]?;
        assert_eq!(rt; rebalance(&mut all, &[7]), Ok(()));
        assert_eq!(rt; counts(&all)[7], 65536);
        Ok(())
    }

    // Three servers, then two: five buckets change hands.
    #[test]
    fn one_goes(rt: HostRuntime) -> Result<(), Fail> {
        let mut buckets = [NONE; 16];
        assert_eq!(rt; rebalance(&mut buckets, &[0, 1, 2]), Ok(()));
        let old = buckets;
        assert_eq!(rt; rebalance(&mut buckets, &[0, 1]), Ok(()));
        assert_eq!(rt; counts(&buckets)[1], 8);
        assert_eq!(rt; moves(rt.alloc(), &old, &buckets)?.len(), 5);
        Ok(())
    }

    // No server, a list that does not rise, a number of buckets that is no power of two.
    #[test]
    fn refuses(rt: HostRuntime) {
        let mut buckets = [NONE; 16];
        assert_eq!(rt; rebalance(&mut buckets, &[]), Err(Fault::NoServer));
        assert_eq!(rt; rebalance(&mut buckets, &[1, 1]), Err(Fault::NoSuch));
        let mut short = [NONE; 15];
        assert_eq!(rt; rebalance(&mut short, &[0]), Err(Fault::NoSuch));
    }
}
