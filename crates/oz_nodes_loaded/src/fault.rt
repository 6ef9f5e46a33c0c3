//! Why nothing is loaded.

ghost use Rattle.std.specs.Prelude.{◌≡◌};
ghost use Rattle.oz_nodes_loaded.specs.Steps.{name_of, named, scm_fault_of};

use crate::disk_name::DiskName;
use oz_datanode::NodeFault;
use oz_scm::ScmFault;

/// Why the disks of a store weren't loaded: the manager's, the storage container manager's or a datanode's.
#[derive(Clone, Copy, Debug, PartialEq, Eq)]
pub enum StoreFault {
    /// A disk failed while it was loaded.
    Disk { name: DiskName },
    /// What a disk has isn't of its form. The offset is the place of the first bad field; on a disk of slots it is the
    /// beginning of the lowest slot in use that passes the end.
    Damaged { name: DiskName, offset: u64 },
    /// The storage container manager's journal names another number of datanodes than was given.
    Nodes { recorded: u8, given: u8 },
    /// The manager or a datanode has a block whose local id isn't below the next one that is granted. The greatest such
    /// id is `seen`.
    Ids { next: u64, seen: u64 },
    OutOfMemory,
}

/// A fault of the storage container manager's disk.
pub(crate) fn of_scm(fault: ScmFault) -> StoreFault
    ensures { result ≡ scm_fault_of fault }
{
    match fault {
        ScmFault::Disk => StoreFault::Disk {
            name: DiskName::Scm,
        },
        ScmFault::Damaged { offset } => StoreFault::Damaged {
            name: DiskName::Scm,
            offset,
        },
        ScmFault::Nodes { recorded, given } => StoreFault::Nodes { recorded, given },
        ScmFault::OutOfMemory => StoreFault::OutOfMemory,
    }
}

/// A fault of the datanode that has this number.
pub(crate) fn of_node(dn: u8, fault: NodeFault) -> StoreFault
    ensures { result ≡ named dn fault }
{
    match fault {
        NodeFault::Disk { slots } => StoreFault::Disk {
            name: disk_name(dn, slots),
        },
        NodeFault::Damaged { slots, offset } => StoreFault::Damaged {
            name: disk_name(dn, slots),
            offset,
        },
        NodeFault::OutOfMemory => StoreFault::OutOfMemory,
    }
}

/// The name of a datanode's disk: that of the slots, or the journal.
fn disk_name(dn: u8, slots: bool) -> DiskName
    ensures { result ≡ name_of dn slots }
{
    if slots {
        DiskName::Slots(dn)
    } else {
        DiskName::Meta(dn)
    }
}
