//! How a line begins.

ghost use Rattle.std.specs.Prelude.{◌≡◌, ◌≤◌, [], IfOk, List, length};
ghost use Rattle.std.specs.Option.{option_map};
ghost use Rattle.oz_at_work.specs.AtWork.{IsAtWork, MayBegin};
ghost use Rattle.oz_buffer.specs.Buffer.{AllFollow, Follows};
ghost use Rattle.oz_core.specs.declared.event.Event.{Event as AnyEvent};
ghost use Rattle.oz_nodes.specs.declared.nodes.TheConstants.{FEWEST_NODES, MOST_NODES};

use crate::at_work::LineAtWork;
use crate::counted::CountedSteps;
use oz_buffer::Opened;
use oz_client::Got;
use oz_fields::OutOfMemory;
use oz_line_blocks::Doubted;
use oz_script::Line;
use oz_steps::Label;
use std::alloc::Global;

impl<'s> LineAtWork<'s> {
    /// A line that starts. `nodes` is the number of datanodes, and `label` what the label that it commits stands for:
    /// none where its last opening was told something else than `OK`, or where the line commits no label.
    pub fn begin<O: Opened>(
        alloc: Global,
        line: &'s Line,
        nodes: u8,
        label: Option<&Label>,
    ) -> Result<LineAtWork<'s>, OutOfMemory>
        requires least { FEWEST_NODES ≤ nodes }
        requires most { nodes ≤ MOST_NODES }
        requires opened { nodes ≡ length O.opening.nodes }
        ensures line { IfOk result (λ work. work.line ≡ line.now) }
        ensures works { O.coherent → (seen : List AnyEvent) →
            AllFollow (Follows O.coherent O.opening O.bytes O.script) [] seen →
            MayBegin O.coherent O.opening O.bytes O.script seen line.now (option_map (λ label. label.now) label.entry) →
            IfOk result (λ work. IsAtWork O.coherent O.opening O.bytes O.script seen work) }
    {
        let mut steps = CountedSteps::new(alloc, &line.command, nodes, label)?;
        let next = steps.next(alloc, Got::Start)?;
        Ok(LineAtWork {
            line,
            steps,
            nodes,
            asked: 0,
            said: 0,
            next,
            is_cut: false,
            gave_up: false,
            doubted: Doubted::none(),
            refused: None,
            was_done: false,
        })
    }
}
