// The numbers of the call for C.
use crate::drafts::RULE;
use colvaje_host::colvaje_contain;
use test_data::MAILBOX;

#[test]
fn the_mailbox(rt: HostRuntime) {
    let (mailbox, rule) = (MAILBOX.as_flattened(), RULE.as_flattened());
    assert_eq!(rt; colvaje_contain(2, mailbox, rule, 0, 0, rt.alloc()), 1);
    assert_eq!(rt; colvaje_contain(2, rule, mailbox, 0, 0, rt.alloc()), 0);
}

// 1,000 times the draft, plus 100 and the refusal's number.
#[test]
fn refusals(rt: HostRuntime) {
    let (mailbox, rule) = (MAILBOX.as_flattened(), RULE.as_flattened());
    assert_eq!(rt; colvaje_contain(0, mailbox, rule, 0, 0, rt.alloc()), 1101);
    assert_eq!(rt;
        colvaje_contain(2, mailbox, &rule[0..9], 0, 0, rt.alloc()),
        2109
    );
    assert_eq!(rt; colvaje_contain(1, rule, mailbox, 0, 0, rt.alloc()), 1107);
    assert_eq!(rt; colvaje_contain(3, mailbox, rule, 0, 0, rt.alloc()), 1112);
    assert_eq!(rt; colvaje_contain(2, mailbox, rule, 3, 2, rt.alloc()), 1104);
    assert_eq!(rt; colvaje_contain(2, mailbox, rule, 0, 2, rt.alloc()), 2104);
}
