// A rule's file made ready to run: its expression written out as nodes, and what a step needs beside them.
#![tactic(auto)]

pub mod writing; // writing.rt: the expression becomes nodes, parts before their whole
pub mod fresh; // fresh.rt: which nodes come into play, and what each gains

ghost use Rattle.std.specs.Prelude.{◌≡◌, ◌<◌, IfOk};
ghost use Rattle.records.specs.Refusals.{number};
ghost use Rattle.files.specs.Rule.{rule_number};
ghost use Rattle.ready.specs.Mirror.Ready.{ready_of};

use play::Rule;
use records::Refusal;
use writing::Written;

// A rule before its first event: the number of its last node, its event nodes and its repeats, the nodes in play, the nodes and what each gains.
#[derive(Clone, Copy)]
pub struct Ready {
    pub root: usize,
    pub leaves: u64,
    pub repeats: u64,
    pub fresh: u64,
    pub nodes: [u16; 64],
    pub gain: [u64; 64],
}

impl Ready {
    // The rule, for a step. A desk has the same of its own fields, on any bytes. The bound stays a clause: the definition `ready_from` makes a `Ready`
    // without a proof of it.
    pub fn rule(&self) -> Rule<'_>
        requires { self.now.root < 64 }
        ensures nodes { result.nodes.now ≡ self.now.nodes }
        ensures gain { result.gain.now ≡ self.now.gain }
        ensures leaves { result.leaves ≡ self.now.leaves }
        ensures repeats { result.repeats ≡ self.now.repeats }
        ensures root { result.root ≡ self.now.root }
    {
        Rule {
            nodes: &self.nodes,
            gain: &self.gain,
            leaves: self.leaves,
            repeats: self.repeats,
            root: self.root,
        }
    }
}

// The rule of any bytes. Refused with the file's refusal, then 8.
pub fn ready_of(file: &[u8]) -> Result<Ready, Refusal>
    ensures refused { number result ≡ rule_number file.now }
    ensures ready { IfOk result (λ r. r ≡ ready_of file.now) }
    ensures root_few { IfOk result (λ r. r.root < 64) }
{
    let mut at = [0usize; 1024];
    let mut ix = [0usize; 1024];
    let reading = files::read_expressions(file, &mut at, &mut ix);
    reading.outcome?;
    let at = &at[..reading.count];
    if 64 < files::sizes::rule_size(file, at) {
        return Err(Refusal::RuleTooLarge);
    }
    let mut written = Written {
        nodes: [0; 64],
        sets: [0; 64],
        count: 0,
    };
    writing::write_out(file, at, at.len() - 1, &mut written);
    let root = written.count - 1;
    let start = fresh::prepare(&written.nodes, &mut written.sets, root);
    Ok(Ready {
        root,
        leaves: start.leaves,
        repeats: start.repeats,
        fresh: start.fresh,
        nodes: written.nodes,
        gain: written.sets,
    })
}
