// Whether a draft is stratified: no rule leads to a larger priority.
ghost use Rattle.std.specs.Prelude.{◌≡◌, ◌<◌};
ghost use Rattle.draft.specs.Automaton.{node_count, priority_of, rule_of};
ghost use Rattle.draft.specs.Meaning.{meaning as automaton};
ghost use Rattle.inclusion.specs.Stratified.{is_low, rule_low, state_low, is_stratified};
ghost use Rattle.contain.specs.Marking.{MarkedLow};

use draft::{Draft, Node};

// Whether each rule leads only to priorities no larger than that of its own state.
pub fn stratified(draft: &Draft) -> bool
    ensures { result ≡ is_stratified (automaton draft.now) }
{
    (0..draft.state_count()).all(|state| state_is_low(draft, state))
}

// The same of the rules of one state, which need not be where a draft starts.
fn state_is_low(draft: &Draft, state: usize) -> bool
    ensures { result ≡ state_low (automaton draft.now) state }
{
    (0..draft.letters()).all(|letter| rule_is_low(draft, state, letter))
}

// The same of one rule, by a walk with marks of its own; where there is no rule it leads nowhere.
fn rule_is_low(draft: &Draft, state: usize, letter: u8) -> bool
    ensures { result ≡ rule_low (automaton draft.now) (priority_of (automaton draft.now) state) (rule_of (automaton draft.now) state letter) }
{
    let limit = draft.priority_at(state);
    draft
        .rule_at(state, letter)
        .is_none_or(|node| Walk::new(draft, limit).passes(node))
}

// A walk down the formula of a rule. A marked node has passed already and is not walked again: shared nodes could otherwise
// double the work at each level. The marks are in fixed memory, one for each node that a draft may have.
#[derive(Drop)]
struct Walk<'a> {
    draft: &'a Draft,
    limit: u16,
    marks: [bool; 128],
    ghost marked_low: { MarkedLow (automaton draft.now) limit marks },
}

impl<'a> Walk<'a> {
    fn new(draft: &'a Draft, limit: u16) -> Walk<'a>
        ensures same_draft { automaton result.draft.now ≡ automaton draft.now }
        ensures same_limit { result.limit ≡ limit }
    {
        Walk {
            draft,
            limit,
            marks: [false; 128],
        }
    }

    // Whether each leaf at or below a node names a state of priority at most the limit.
    fn passes(&mut self, node: u8) -> bool
        requires { node < node_count (automaton self.old.draft.now) }
        ensures value { result ≡ is_low (automaton self.old.draft.now) self.old.limit node }
        ensures same_draft { automaton self.new.draft.now ≡ automaton self.old.draft.now }
        ensures same_limit { self.new.limit ≡ self.old.limit }
    {
        let at = usize::from(node);
        if self.marks[at] {
            return true;
        }
        let low = match self.draft.node_at(at) {
            Node::Leaf(state) => self.draft.priority_at(usize::from(state)) <= self.limit,
            Node::Either(left, right) | Node::Both(left, right) => {
                self.passes(left) && self.passes(right)
            }
        };
        self.marks[at] = low;
        low
    }
}
