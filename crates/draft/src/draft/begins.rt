// How a draft begins, and its states.
ghost use Rattle.std.specs.Prelude.{◌≡◌, IfOk};
ghost use Rattle.draft.specs.Automaton.{empty};
ghost use Rattle.draft.specs.Calls.{begin_with, add_state};
ghost use Rattle.draft.specs.History.{HistoriesKeep};
ghost use Rattle.draft.specs.Meaning.{meaning};

use super::Draft;
use super::letters::Letters;
use crate::parts::State;
use refusal::Refusal;
use std::alloc::{AllocError, Global};

impl Draft {
    // An empty draft with one letter, and room for all that a draft can hold. `kept` is the law of every draft
    // that calls make from a new one.
    #[tactic(auto, using(crate::proofs::Histories::histories_keep))]
    pub fn new(heap: Global) -> Result<Draft, AllocError>
        ensures made { IfOk result (λ d. meaning d ≡ empty 1) }
        ensures kept { HistoriesKeep }
    {
        let states = Vec::with_capacity(heap, 32)?;
        let nodes = Vec::with_capacity(heap, 128)?;
        Ok(Draft {
            letters: 1,
            states,
            nodes,
        })
    }

    // Empties the draft and sets its letters.
    pub fn begin(&mut self, letters: u32) -> Result<(), Refusal>
        ensures { (result, meaning self.new) ≡ begin_with (meaning self.old) letters }
    {
        self.restart(Letters::try_from(letters)?);
        Ok(())
    }

    // Empties the draft and sets its letters.
    pub(crate) fn restart(&mut self, letters: Letters)
        ensures { meaning self.new ≡ empty letters.count }
    {
        self.letters = letters.count;
        self.states.clear();
        self.nodes.clear();
    }

    // Adds a state with no rules, and answers its number.
    pub fn state(&mut self, priority: u16) -> Result<u8, Refusal>
        ensures { (result, meaning self.new) ≡ add_state (meaning self.old) priority }
    {
        if priority > 999 {
            return Err(Refusal::Priority);
        }
        let count = self.states.len();
        if count >= 32 {
            return Err(Refusal::States);
        }
        self.states.push_reserved(State {
            priority,
            rules: [None; 16],
        });
        Ok(count as u8)
    }
}
