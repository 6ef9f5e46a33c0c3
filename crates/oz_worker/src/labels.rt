//! What stands in the labels of a client.

ghost use Rattle.std.specs.Prelude.{◌≡◌, option_copied, OnOk, OnErr};
ghost use Rattle.std.specs.FinMap.{empty, get, insert};
ghost use Rattle.std.specs.Option.{option_map};
ghost use Rattle.oz_worker.specs.Labels.{label_for, noted};

use oz_command::Command;
use oz_fields::{Name, OutOfMemory, TryClone};
use oz_namespace::NameMap;
use oz_steps::Label;
use std::alloc::Global;

/// The labels that a client's lines opened, with what each stands for: nothing where the line that opened it last was
/// told something else than `OK`.
#[derive(Drop)]
pub(crate) struct Labels {
    labels: NameMap<Option<Label>>,
}

impl Labels {
    /// No labels. It takes no memory.
    pub(crate) fn new(alloc: Global) -> Labels
        ensures { result.labels ≡ empty }
    {
        Labels {
            labels: NameMap::new(alloc),
        }
    }

    /// What the label that a line commits stands for, if a line opened it; nothing for a line that commits none.
    pub(crate) fn label_for(&self, command: &Command) -> Option<Option<&Label>>
        ensures { option_map option_copied result ≡ label_for self.now.labels command.now }
    {
        match command {
            Command::KeyCommit { label } => self.get(label),
            _ => Some(None),
        }
    }

    /// What a line left in the label that it opened is noted, if it opened any.
    pub(crate) fn note_left(
        &mut self,
        alloc: Global,
        command: &Command,
        left: Option<Label>,
    ) -> Result<(), OutOfMemory>
        ensures ok { OnOk result (self.new.labels ≡ noted self.old.labels command.now left) }
        ensures err { OnErr result (self.new.labels ≡ self.old.labels) }
    {
        match command {
            Command::KeyOpen { label, .. } => self.note(alloc, label, left),
            _ => Ok(()),
        }
    }

    /// What a label stands for, if a line opened it.
    fn get(&self, name: &Name) -> Option<Option<&Label>>
        ensures { option_map option_copied result ≡ get self.now.labels name.now }
    {
        match self.labels.get(name) {
            Some(label) => Some(label.as_ref()),
            None => None,
        }
    }

    /// A label stands for this from now on.
    fn note(&mut self, alloc: Global, name: &Name, label: Option<Label>) -> Result<(), OutOfMemory>
        ensures ok { OnOk result (self.new.labels ≡ insert self.old.labels name.now label) }
        ensures err { OnErr result (self.new.labels ≡ self.old.labels) }
    {
        let name = name.try_clone(alloc)?;
        self.labels.insert(alloc, name, label)
    }
}
