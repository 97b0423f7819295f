// The priorities of a draft, and its dual.
ghost use Rattle.std.specs.Prelude.{◌≡◌, true, map};
ghost use Rattle.draft.specs.Automaton.{priority_of};
ghost use Rattle.draft.specs.Calls.{can_turn, dual, raised, set_priority, turn_over};
ghost use Rattle.draft.specs.Meaning.{meaning};

use super::Draft;
use crate::parts::{Node, State};
use refusal::Refusal;

impl Draft {
    // Replaces the priority of a state.
    pub fn regrade(&mut self, state: u16, priority: u16) -> Result<(), Refusal>
        ensures { (result, meaning self.new) ≡ set_priority (meaning self.old) state priority }
    {
        let state = self.known_state(state)?;
        if priority > 999 {
            return Err(Refusal::Priority);
        }
        self.states[usize::from(state)].priority = priority;
        Ok(())
    }

    // The priority of a state, or 0 where there is no such state, as the definition has it.
    pub fn priority_at(&self, state: usize) -> u16
        ensures { result ≡ priority_of (meaning self.now) state }
    {
        self.states.get(state).map_or(0, |s| s.priority)
    }

    // Exchanges either and both throughout, and adds 1 to every priority.
    pub fn turn(&mut self) -> Result<(), Refusal>
        ensures { (result, meaning self.new) ≡ turn_over (meaning self.old) }
    {
        if !all_below_top(&self.states) {
            return Err(Refusal::Top);
        }
        raise_states(&mut self.states);
        turn_nodes(&mut self.nodes);
        Ok(())
    }
}

// Whether every priority is below 999.
fn all_below_top(states: &[State]) -> bool
    ensures { result ≡ can_turn states.now }
{
    states.iter().all(|s| s.priority < 999)
}

// Adds 1 to every priority. It and `turn_nodes` are no one function over a closure: that the sum fits would become a clause of it.
fn raise_states(states: &mut [State])
    requires { can_turn states.old ≡ true }
    ensures { states.new ≡ map raised states.old }
{
    for s in states {
        s.priority += 1;
    }
}

// Exchanges either and both throughout.
fn turn_nodes(nodes: &mut [Node])
    ensures { nodes.new ≡ map dual nodes.old }
{
    for n in nodes {
        *n = n.dual();
    }
}
