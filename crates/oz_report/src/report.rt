//! The report: a line for each thing that a reader of a run is shown.

ghost use Rattle.std.specs.Prelude.{◌≡◌, ◌++◌, IfOk, OnOk};
ghost use Rattle.oz_report.specs.Report.{report_of, halt_text, node_text};

use crate::answers::{push_text, push_told};
use crate::decided::push_decide;
use oz_core::{Event, EventKind, Node, SERVICE_CLIENT};
use oz_fields::OutOfMemory;
use oz_requests::{AskId, Request};
use std::alloc::Global;
use std::collections::BTreeMap;

/// What a run over a script of so many lines prints of its story, in one walk over it. Any story
/// is taken, also one that no run tells.
pub fn text(alloc: Global, lines: u64, story: &[Event]) -> Result<Vec<u8>, OutOfMemory>
    ensures { IfOk result (λ text. text.items ≡ report_of lines story.now) }
{
    let mut out = Vec::from_slice(alloc, b"story 1\n")?;
    let mut pending: BTreeMap<AskId, &Request> = BTreeMap::new(alloc);
    let mut told: u64 = 0;
    for event in story {
        match &event.kind {
            EventKind::Ask { id, request } => {
                pending.insert(*id, request)?;
            }
            EventKind::Decide { id, reply, .. } => {
                let request = pending.remove(id);
                if id.client != SERVICE_CLIENT {
                    push_decide(alloc, &mut out, *id, request, reply)?;
                }
            }
            EventKind::Told {
                client,
                line,
                answer,
            } => {
                push_told(alloc, &mut out, *client, *line, answer)?;
                told += 1;
            }
            EventKind::Halt { node, count } => {
                push_halt(alloc, &mut out, *node, *count)?;
            }
            _ => {}
        }
    }
    push_text(&mut out, &format!(in alloc; "end {told} of {lines}\n")?)?;
    Ok(out)
}

fn push_halt(alloc: Global, out: &mut Vec<u8>, node: Node, count: u64) -> Result<(), OutOfMemory>
    ensures { OnOk result (out.new.items ≡ out.old.items ++ halt_text node count) }
{
    push_text(out, "h ")?;
    push_node(alloc, out, node)?;
    push_text(out, &format!(in alloc; " {count}\n")?)
}

fn push_node(alloc: Global, out: &mut Vec<u8>, node: Node) -> Result<(), OutOfMemory>
    ensures { OnOk result (out.new.items ≡ out.old.items ++ node_text node) }
{
    match node {
        Node::Manager => push_text(out, "manager"),
        Node::Scm => push_text(out, "scm"),
        Node::Datanode(number) => push_text(out, &format!(in alloc; "dn{number}")?),
    }
}
