//! A client whose lines are served.

ghost use Rattle.std.specs.Prelude.{◌≡◌, ◌≤◌, ◌↔◌, List, IfOk, IsTrue, map, slice_get, vec_len};
ghost use Rattle.oz_core.specs.declared.event.Event.{Event as AnyEvent};
ghost use Rattle.oz_script.specs.lines.Numbered.{IsNumbered};
ghost use Rattle.oz_worker.specs.ClientLines.{lines_of_client};
ghost use Rattle.oz_worker.specs.Served.{IsServed};

use crate::labels::Labels;
use crate::resting::Rest;
use oz_at_work::LineAtWork;
use oz_buffer::Opened;
use oz_fields::OutOfMemory;
use oz_script::{Line, Script};
use std::alloc::Global;

/// A client of a script: its lines in order, how many of them were told, the one that is worked for, its labels, and how
/// it stood at its worker's last look.
#[derive(Drop)]
pub(crate) struct Client<'s> {
    pub(crate) number: u16,
    pub(crate) lines: Vec<&'s Line>,
    pub(crate) told: usize,
    pub(crate) work: Option<LineAtWork<'s>>,
    pub(crate) labels: Labels,
    pub(crate) rest: Rest,
}

impl<'s> Client<'s> {
    /// The client of this number, of whose lines none was told.
    pub(crate) fn new<O: Opened>(
        alloc: Global,
        script: &'s Script,
        number: u16,
    ) -> Result<Client<'s>, OutOfMemory>
        requires script { script.now ≡ O.script }
        requires numbered { IsNumbered O.script }
        ensures served { IfOk result (λ client. (seen : List AnyEvent) →
            IsServed O.coherent O.opening O.bytes O.script seen client) }
        ensures number { IfOk result (λ client. client.number ≡ number) }
    {
        let lines = client_lines(alloc, script, number)?;
        Ok(Client {
            number,
            lines,
            told: 0,
            work: None,
            labels: Labels::new(alloc),
            rest: Rest::new(),
        })
    }

    /// The first line that wasn't told yet.
    pub(crate) fn next_line(&self) -> Option<&'s Line>
        ensures { result ≡ slice_get self.now.lines.items self.now.told }
    {
        self.lines.get(self.told).copied()
    }

    /// Whether all its lines were told.
    pub(crate) fn is_done(&self) -> bool
        ensures { IsTrue result ↔ (vec_len self.now.lines ≤ self.now.told) }
    {
        self.told >= self.lines.len()
    }
}

/// The lines of a client, in order.
fn client_lines<'s>(
    alloc: Global,
    script: &'s Script,
    client: u16,
) -> Result<Vec<&'s Line>, OutOfMemory>
    ensures { IfOk result (λ lines. map (λ line. line.now) lines.items ≡ lines_of_client script.now client) }
{
    let mut lines = Vec::new(alloc);
    for line in script.lines.items() {
        if line.client == client {
            lines.push(line)?;
        }
    }
    Ok(lines)
}
