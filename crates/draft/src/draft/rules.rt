// The rules of a draft, and whether they are complete.
ghost use Rattle.std.specs.Prelude.{◌≡◌};
ghost use Rattle.draft.specs.Automaton.{rule_of, is_ruled, is_complete};
ghost use Rattle.draft.specs.Calls.{set_rule};
ghost use Rattle.draft.specs.Meaning.{meaning};

use super::Draft;
use refusal::Refusal;

impl Draft {
    // Sets or replaces the rule of a state for a letter.
    pub fn rule(&mut self, state: u16, letter: u8, node: u16) -> Result<(), Refusal>
        ensures { (result, meaning self.new) ≡ set_rule (meaning self.old) state letter node }
    {
        let state = self.known_state(state)?;
        if letter >= self.letters {
            return Err(Refusal::NoLetter);
        }
        let node = self.known_node(node)?;
        self.states[usize::from(state)].rules[usize::from(letter)] = Some(node);
        Ok(())
    }

    // The node to which a letter leads a state, if there is a rule for them.
    pub fn rule_at(&self, state: usize, letter: u8) -> Option<u8>
        ensures { result ≡ rule_of (meaning self.now) state letter }
    {
        *self.states.get(state)?.rules.get(usize::from(letter))?
    }

    // Whether a state has a rule for each letter.
    pub fn ruled(&self, state: usize) -> bool
        ensures { result ≡ is_ruled (meaning self.now) state }
    {
        (0..self.letters).all(|letter| self.rule_at(state, letter).is_some())
    }

    // Whether each state has a rule for each letter.
    pub fn complete(&self) -> bool
        ensures { result ≡ is_complete (meaning self.now) }
    {
        (0..self.states.len()).all(|state| self.ruled(state))
    }
}
