// A draft as the records of a file.
ghost use Rattle.std.specs.Prelude.{◌≡◌, ◌≤◌, ◌++◌, map, length, IfOk, OnOk};
ghost use Rattle.std.specs.List.{flat_map};
ghost use Rattle.draft.specs.declared.records.Call.{Call};
ghost use Rattle.draft.specs.Meaning.{meaning};
ghost use Rattle.draft.specs.Written.{encoded, state_call, node_call, rule_call, rule_calls, all_rule_calls, written, WrittenLoads};

use super::Draft;
use crate::parts::{Node, State};
use crate::records::{Call, encode};
use std::alloc::{AllocError, Global};

// A part of a draft that one call adds.
trait Part {
    ghost adding: { Self → Call };

    fn call(&self) -> Call
        ensures { result ≡ adding self.now };
}

impl Part for State {
    ghost adding = { state_call };

    fn call(&self) -> Call {
        Call::State(self.priority)
    }
}

impl Part for Node {
    ghost adding = { node_call };

    fn call(&self) -> Call {
        match *self {
            Node::Leaf(state) => Call::Leaf(u16::from(state)),
            Node::Either(left, right) => Call::Either(u16::from(left), u16::from(right)),
            Node::Both(left, right) => Call::Both(u16::from(left), u16::from(right)),
        }
    }
}

impl Draft {
    // The draft as records: its states, then its nodes, then its rules by state and letter. `loads` is the law
    // that such records load back to the same draft.
    #[tactic(auto, using(crate::proofs::Reloads::written_loads))]
    pub fn records(&self, heap: Global) -> Result<Vec<u8>, AllocError>
        ensures made { IfOk result (λ v. v.items ≡ written (meaning self.now)) }
        ensures loads { WrittenLoads }
    {
        let mut out = Vec::new(heap);
        put_each(&mut out, &self.states)?;
        put_each(&mut out, &self.nodes)?;
        put_all_rules(&mut out, &self.states)?;
        Ok(out)
    }
}

// Adds the record of a call.
fn put(out: &mut Vec<u8>, call: Call) -> Result<(), AllocError>
    ensures { OnOk result (out.new.items ≡ out.old.items ++ encoded call) }
{
    out.extend_from_slice(&encode(call))
}

// Adds the record of each part.
fn put_each<P: Part>(out: &mut Vec<u8>, parts: &[P]) -> Result<(), AllocError>
    ensures { OnOk result (out.new.items ≡ out.old.items ++ flat_map encoded (map P.adding parts.now)) }
{
    for part in parts {
        put(out, part.call())?;
    }
    Ok(())
}

// Adds a record for each rule.
#[tactic(auto, using(crate::proofs::Puts::rule_steps))]
fn put_all_rules(out: &mut Vec<u8>, states: &[State]) -> Result<(), AllocError>
    requires { length states.now ≤ 32 }
    ensures { OnOk result (out.new.items ≡ out.old.items ++ flat_map encoded (all_rule_calls 0 states.now)) }
{
    for (q, s) in states.iter().enumerate() {
        put_rules(out, q as u16, &s.rules)?;
    }
    Ok(())
}

// Adds a record for each rule of a state.
#[tactic(auto, using(crate::proofs::Puts::rule_steps))]
fn put_rules(out: &mut Vec<u8>, state: u16, rules: &[Option<u8>; 16]) -> Result<(), AllocError>
    ensures { OnOk result (out.new.items ≡ out.old.items ++ flat_map encoded (rule_calls state 0 rules.now)) }
{
    for (letter, rule) in rules.iter().enumerate() {
        put_rule(out, state, letter as u8, *rule)?;
    }
    Ok(())
}

// Adds the record of a rule, if there is one.
fn put_rule(out: &mut Vec<u8>, state: u16, letter: u8, rule: Option<u8>) -> Result<(), AllocError>
    ensures { OnOk result (out.new.items ≡ out.old.items ++ flat_map encoded (rule_call state letter rule)) }
{
    if let Some(node) = rule {
        put(out, Call::Rule(state, letter, u16::from(node)))?;
    }
    Ok(())
}
