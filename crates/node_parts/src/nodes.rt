//! Datanodes that are up, and the pipelines that may be picked.
//!
//! A call begins with `COUNT up LIST`, so many datanodes of which these are up. It is `is-up DN`, `any-up`, `pipelines`,
//! `members PIPELINE`, or `picks LIST`, which gives the pipeline for each of sixteen stripes where these are excluded, and
//! `-` for none.

ghost use Rattle.std.specs.Prelude.{◌≡◌, ◌≤◌, length};

use crate::calls::{calls_of, judge_call};
use crate::told::{Stuck, Told};
use crate::words::{numbers, small, smalls};
use case_files::{Judged, Statement};
use oz_nodes::Nodes;
use std::alloc::{AllocError, Global};

/// How many stripes there are.
const STRIPES: u8 = 16;

/// So many datanodes, each of which goes down, and up again where it stands here.
fn nodes_of(count: u8, up: &[u64]) -> Nodes
    requires least { 3 ≤ count }
    requires most { count ≤ 16 }
    ensures { length result ≡ count }
{
    let mut nodes = Nodes::new(count);
    for dn in 0..count {
        nodes.down(dn);
        if up.contains(&u64::from(dn)) {
            nodes.up(dn);
        }
    }
    nodes
}

/// Writes the pipeline of each stripe.
fn pick(nodes: &Nodes, exclude: &[u8], came: &mut String) -> Result<(), Stuck> {
    for stripe in 0..STRIPES {
        if stripe > 0 {
            came.push(' ')?;
        }
        match nodes.pick(stripe, exclude) {
            Some(pipeline) => write!(came, "{pipeline}")?,
            None => came.push('-')?,
        }
    }
    Ok(())
}

fn is_up(nodes: &Nodes, count: u8, call: &Statement) -> Result<bool, Stuck>
    requires { length nodes.now ≡ count }
{
    let dn = small(call.word(4))?;
    if dn >= count {
        return Err(Stuck::Unread);
    }
    Ok(nodes.is_up(dn))
}

fn members(nodes: &Nodes, call: &Statement) -> Result<[u8; 3], Stuck> {
    let pipeline = small(call.word(4))?;
    if pipeline >= nodes.pipelines() {
        return Err(Stuck::Unread);
    }
    Ok(nodes.members(pipeline))
}

/// Writes what these datanodes give.
fn ask(
    alloc: Global,
    nodes: &Nodes,
    count: u8,
    call: &Statement,
    came: &mut String,
) -> Result<(), Stuck>
    requires { length nodes.now ≡ count }
{
    match call.word(3) {
        "is-up" => write!(came, "{}", is_up(nodes, count, call)?)?,
        "any-up" => write!(came, "{}", nodes.any_up())?,
        "pipelines" => write!(came, "{}", nodes.pipelines())?,
        "members" => write!(came, "{:?}", members(nodes, call)?)?,
        "picks" => pick(nodes, &smalls(alloc, call.word(4))?, came)?,
        _ => return Err(Stuck::Unread),
    }
    Ok(())
}

/// Writes what a call comes to.
fn make(alloc: Global, call: &Statement, came: &mut String) -> Result<(), Stuck> {
    let count = small(call.word(0))?;
    if count < 3 || count > 16 || call.word(1) != "up" {
        return Err(Stuck::Unread);
    }
    let nodes = nodes_of(count, &numbers(alloc, call.word(2))?);
    ask(alloc, &nodes, count, call, came)
}

/// Judges a case of datanodes.
pub fn judge_nodes(alloc: Global, case: &[Statement]) -> Result<Judged, AllocError> {
    let mut told = Told::new(alloc);
    for call in &calls_of(&mut told, case)? {
        let mut came = String::new(alloc);
        let made = make(alloc, call, &mut came);
        judge_call(&mut told, call, made, came.as_str())?;
    }
    Ok(told.judged())
}
