// Tests of loading: the faults in their order, and what they leave.
#[cfg(test)]
mod tests {
    use draft::{Draft, LoadFault, load};
    use std::test::Fail;

    // The mailbox drawing: letters post 0 and take 1, states 2, 2, 1, a leaf for each state, then its rules.
    const MAILBOX: [u8; 96] = [
        1, 0, 2, 0, 0, 0, 0, 0, //
        1, 0, 2, 0, 0, 0, 0, 0, //
        1, 0, 1, 0, 0, 0, 0, 0, //
        2, 0, 0, 0, 0, 0, 0, 0, //
        2, 0, 1, 0, 0, 0, 0, 0, //
        2, 0, 2, 0, 0, 0, 0, 0, //
        5, 0, 0, 0, 1, 0, 0, 0, //
        5, 1, 0, 0, 2, 0, 0, 0, //
        5, 0, 1, 0, 2, 0, 0, 0, //
        5, 1, 1, 0, 0, 0, 0, 0, //
        5, 0, 2, 0, 2, 0, 0, 0, //
        5, 1, 2, 0, 2, 0, 0, 0, //
    ];

    // Number, place and layer of a fault, or zeros.
    fn told(answer: Result<(), LoadFault>) -> (u8, usize, u8) {
        match answer {
            Ok(()) => (0, 0, 0),
            Err(fault) => (u8::from(fault.refusal), fault.place, u8::from(fault.layer)),
        }
    }

    #[test]
    fn the_mailbox_loads(rt: HostRuntime) -> Result<(), Fail> {
        let mut draft = Draft::new(rt.alloc())?;
        assert_eq!(rt; told(load(&mut draft, 2, &MAILBOX)), (0, 0, 0));
        assert_eq!(rt;
            (draft.letters(), draft.state_count(), draft.node_count()),
            (2, 3, 3)
        );
        assert_eq!(rt;
            (
                draft.priority_at(0),
                draft.priority_at(1),
                draft.priority_at(2),
            ),
            (2, 2, 1)
        );
        assert_eq!(rt;
            (draft.rule_at(0, 0), draft.rule_at(0, 1)),
            (Some(1), Some(2))
        );
        assert_eq!(rt;
            (draft.rule_at(1, 0), draft.rule_at(1, 1)),
            (Some(2), Some(0))
        );
        assert_eq!(rt;
            (draft.rule_at(2, 0), draft.rule_at(2, 1)),
            (Some(2), Some(2))
        );
        assert!(rt; draft.complete());
        Ok(())
    }

    #[test]
    fn the_mailbox_is_written_as_it_was_read(rt: HostRuntime) -> Result<(), Fail> {
        let mut draft = Draft::new(rt.alloc())?;
        assert_eq!(rt; told(load(&mut draft, 2, &MAILBOX)), (0, 0, 0));
        let bytes = draft.records(rt.alloc())?;
        assert_eq!(rt; bytes.len(), 96);
        assert!(rt; bytes.as_slice() == &MAILBOX[0..96]);
        Ok(())
    }

    #[test]
    fn a_fault_of_the_file_keeps_the_draft(rt: HostRuntime) -> Result<(), Fail> {
        let mut draft = Draft::new(rt.alloc())?;
        assert_eq!(rt; told(load(&mut draft, 2, &MAILBOX)), (0, 0, 0));
        assert_eq!(rt; told(load(&mut draft, 0, &MAILBOX[0..7])), (1, 0, 1));
        assert_eq!(rt; told(load(&mut draft, 17, &MAILBOX[0..7])), (1, 0, 1));
        assert_eq!(rt; told(load(&mut draft, 1, &MAILBOX[0..7])), (9, 0, 1));
        assert_eq!(rt;
            (draft.letters(), draft.state_count(), draft.node_count()),
            (2, 3, 3)
        );
        assert_eq!(rt; told(load(&mut draft, 1, &MAILBOX[0..0])), (0, 0, 0));
        assert_eq!(rt;
            (draft.letters(), draft.state_count(), draft.node_count()),
            (1, 0, 0)
        );
        Ok(())
    }

    #[test]
    fn a_later_fault_keeps_the_records_before_it(rt: HostRuntime) -> Result<(), Fail> {
        let mut draft = Draft::new(rt.alloc())?;
        // with one letter the rule of record 7 names a letter that is not there
        assert_eq!(rt; told(load(&mut draft, 1, &MAILBOX)), (7, 7, 3));
        assert_eq!(rt;
            (draft.letters(), draft.state_count(), draft.node_count()),
            (1, 3, 3)
        );
        assert_eq!(rt; (draft.rule_at(0, 0), draft.rule_at(1, 0)), (Some(1), None));
        let mut bytes = MAILBOX;
        bytes[88] = 8;
        assert_eq!(rt; told(load(&mut draft, 2, &bytes)), (10, 11, 2));
        assert_eq!(rt; (draft.rule_at(2, 0), draft.rule_at(2, 1)), (Some(2), None));
        Ok(())
    }

    #[test]
    fn byte_0_names_a_call(rt: HostRuntime) -> Result<(), Fail> {
        let mut draft = Draft::new(rt.alloc())?;
        assert_eq!(rt;
            told(load(&mut draft, 1, &[0, 9, 9, 9, 9, 9, 9, 9])),
            (10, 0, 2)
        );
        assert_eq!(rt;
            told(load(&mut draft, 1, &[8, 9, 9, 9, 9, 9, 9, 9])),
            (10, 0, 2)
        );
        Ok(())
    }

    // A record of each call, with one unused byte set.
    #[test]
    fn unused_bytes_are_zero(rt: HostRuntime) -> Result<(), Fail> {
        let mut draft = Draft::new(rt.alloc())?;
        let unused: [(u8, &[usize]); 7] = [
            (1, &[1, 4, 5, 6, 7]),
            (2, &[1, 4, 5, 6, 7]),
            (3, &[1, 6, 7]),
            (4, &[1, 6, 7]),
            (5, &[6, 7]),
            (6, &[1, 6, 7]),
            (7, &[1, 2, 3, 4, 5, 6, 7]),
        ];
        for (kind, places) in unused.iter() {
            for place in places.iter() {
                assert!(rt; *place < 8);
                let mut bytes = [*kind, 0, 0, 0, 0, 0, 0, 0];
                bytes[*place] = 1;
                assert_eq!(rt; told(load(&mut draft, 1, &bytes)), (11, 0, 2));
            }
        }
        Ok(())
    }
}
