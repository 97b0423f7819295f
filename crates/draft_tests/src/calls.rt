// Tests of the calls: limits, and refusals in the order of their questions.
#[cfg(test)]
mod tests {
    use draft::{Draft, Node};
    use refusal::Refusal;
    use std::test::Fail;

    // The number of a refusal, or 0.
    fn number<T: Drop>(answer: Result<T, Refusal>) -> u8 {
        match answer {
            Ok(_) => 0,
            Err(refusal) => u8::from(refusal),
        }
    }

    #[test]
    fn a_new_draft_is_empty(rt: HostRuntime) -> Result<(), Fail> {
        let draft = Draft::new(rt.alloc())?;
        assert_eq!(rt; draft.letters(), 1);
        assert_eq!(rt; draft.state_count(), 0);
        assert_eq!(rt; draft.node_count(), 0);
        assert!(rt; draft.complete());
        Ok(())
    }

    #[test]
    fn begin_empties(rt: HostRuntime) -> Result<(), Fail> {
        let mut draft = Draft::new(rt.alloc())?;
        assert_eq!(rt; number(draft.state(5)), 0);
        assert_eq!(rt; number(draft.leaf(0)), 0);
        assert_eq!(rt; number(draft.begin(0)), 1);
        assert_eq!(rt; number(draft.begin(17)), 1);
        assert_eq!(rt;
            (draft.letters(), draft.state_count(), draft.node_count()),
            (1, 1, 1)
        );
        assert_eq!(rt; number(draft.begin(16)), 0);
        assert_eq!(rt;
            (draft.letters(), draft.state_count(), draft.node_count()),
            (16, 0, 0)
        );
        Ok(())
    }

    #[test]
    fn priorities(rt: HostRuntime) -> Result<(), Fail> {
        let mut draft = Draft::new(rt.alloc())?;
        assert_eq!(rt; number(draft.state(999)), 0);
        assert_eq!(rt; number(draft.state(1000)), 2);
        assert_eq!(rt; draft.state_count(), 1);
        assert_eq!(rt; number(draft.turn()), 8);
        assert_eq!(rt; draft.priority_at(0), 999);
        assert_eq!(rt; number(draft.regrade(1, 1000)), 4);
        assert_eq!(rt; number(draft.regrade(0, 1000)), 2);
        assert_eq!(rt; number(draft.regrade(0, 998)), 0);
        assert_eq!(rt; number(draft.turn()), 0);
        assert_eq!(rt; draft.priority_at(0), 999);
        Ok(())
    }

    #[test]
    fn states_end_at_32(rt: HostRuntime) -> Result<(), Fail> {
        let mut draft = Draft::new(rt.alloc())?;
        for i in 0..32u8 {
            assert!(rt; draft.state(7) == Ok(i));
        }
        assert_eq!(rt; number(draft.state(7)), 3);
        assert_eq!(rt; number(draft.state(1000)), 2);
        assert_eq!(rt; draft.state_count(), 32);
        Ok(())
    }

    #[test]
    fn nodes_end_at_128(rt: HostRuntime) -> Result<(), Fail> {
        let mut draft = Draft::new(rt.alloc())?;
        assert_eq!(rt; number(draft.state(0)), 0);
        for _ in 0..128u8 {
            assert_eq!(rt; number(draft.leaf(0)), 0);
        }
        assert_eq!(rt; number(draft.leaf(0)), 5);
        assert_eq!(rt; number(draft.either(127, 0)), 5);
        assert_eq!(rt; number(draft.both(0, 127)), 5);
        assert_eq!(rt; number(draft.leaf(1)), 4);
        assert_eq!(rt; number(draft.either(0, 128)), 6);
        assert_eq!(rt; number(draft.both(128, 0)), 6);
        assert_eq!(rt; draft.node_count(), 128);
        Ok(())
    }

    #[test]
    fn rules_ask_state_letter_node(rt: HostRuntime) -> Result<(), Fail> {
        let mut draft = Draft::new(rt.alloc())?;
        assert_eq!(rt; number(draft.rule(0, 1, 0)), 4);
        assert_eq!(rt; number(draft.state(3)), 0);
        assert_eq!(rt; number(draft.rule(0, 1, 0)), 7);
        assert_eq!(rt; number(draft.rule(0, 0, 0)), 6);
        assert_eq!(rt; draft.rule_at(0, 0), None);
        assert!(rt; !draft.complete());
        assert_eq!(rt; number(draft.leaf(0)), 0);
        assert_eq!(rt; number(draft.leaf(0)), 0);
        assert_eq!(rt; number(draft.rule(0, 0, 0)), 0);
        assert_eq!(rt; number(draft.rule(0, 0, 1)), 0);
        assert_eq!(rt; draft.rule_at(0, 0), Some(1));
        assert!(rt; draft.complete());
        Ok(())
    }

    #[test]
    fn turn_exchanges(rt: HostRuntime) -> Result<(), Fail> {
        let mut draft = Draft::new(rt.alloc())?;
        assert_eq!(rt; number(draft.state(3)), 0);
        assert_eq!(rt; number(draft.leaf(0)), 0);
        assert_eq!(rt; number(draft.either(0, 0)), 0);
        assert_eq!(rt; number(draft.both(0, 1)), 0);
        assert_eq!(rt; number(draft.turn()), 0);
        assert_eq!(rt; draft.priority_at(0), 4);
        assert_eq!(rt; draft.node_at(0), Node::Leaf(0));
        assert_eq!(rt; draft.node_at(1), Node::Both(0, 0));
        assert_eq!(rt; draft.node_at(2), Node::Either(0, 1));
        Ok(())
    }
}
