ghost use Rattle.std.specs.Prelude.{◌<◌, ◌≤◌};

use crate::agree::{expect_groups, expect_same};
use crate::counting_gate::CountingGate;
use crate::expect::{expect, expect_count};
use crate::graphs::{Shape, graph_of, graph_with};
use crate::meeting::Meeting;
use graph_law::Graph;
use search_pool::{Gate, MeetGate, OpenGate, drive_workers};
use std::alloc::{AllocError, Global};
use std::process::Abort;
use std::sync::Wait;
use std::test::Fail;
use std::thread::Threads;

const LOOPS: u32 = 50_000_000;

// A few microseconds.
const SLOW: u32 = 200;

/// The first worker is held in the expansion of its root until all workers expand a node, so the
/// others begin. Each node is expanded once.
#[test]
fn as_many_nodes_are_expanded_at_once_as_there_are_workers(rt: HostRuntime) -> Result<(), Fail> {
    let alloc = rt.alloc();
    for jobs in 2..4 {
        let graph = graph_with(alloc, Shape::Loose, jobs)?;
        expect_meeting(&rt, alloc, &graph, jobs)?;
    }
    Ok(())
}

fn expect_meeting<R: Threads + Wait + Sync + Abort>(
    rt: &R,
    alloc: Global,
    graph: &Graph,
    jobs: u32,
) -> Result<(), AllocError>
    requires some { 0 < jobs }
    requires jobs { jobs ≤ 64 }
{
    let meeting = Meeting::new(graph, jobs);
    let groups = drive_workers(rt, alloc, &meeting, graph.roots(), jobs, &OpenGate)?;
    expect_count(rt, meeting.met_count(), jobs);
    expect_count(rt, meeting.begun_count(), jobs);
    expect_same(rt, alloc, graph, groups)
}

#[test]
fn two_expansions_meet_at_a_gate(rt: HostRuntime) -> Result<(), Fail> {
    let alloc = rt.alloc();
    let graph = graph_with(alloc, Shape::Loose, 2)?;
    let gate = MeetGate::new(LOOPS);
    expect_groups(&rt, alloc, &graph, 2, &gate)?;
    expect(&rt, gate.met(), "two nodes are expanded at once");
    Ok(())
}

#[test]
fn expansions_one_after_another_never_meet(rt: HostRuntime) {
    let gate = MeetGate::new(10);
    gate.opened(0);
    gate.opened(1);
    expect(&rt, !gate.met(), "no two at once");
}

/// The others hold back if nodes are expanded cheaply, and begin if they aren't. A single root
/// leaves them nothing to begin at.
#[test]
fn a_gate_is_told_of_each_node_once(rt: HostRuntime) -> Result<(), Fail> {
    let alloc = rt.alloc();
    let chain = graph_with(alloc, Shape::Chain, 20_000)?;
    expect_opened(&rt, alloc, &chain, 0, 20_000)?;
    expect_opened(&rt, alloc, &chain, SLOW, 20_000)?;
    let ring = graph_of(alloc, &[&[1], &[2], &[0], &[]], &[0])?;
    expect_opened(&rt, alloc, &ring, 0, 3)?;
    Ok(())
}

/// Expects that one worker and four expand this many nodes, each of which takes `loops` iterations.
fn expect_opened<R: Threads + Wait + Sync + Abort>(
    rt: &R,
    alloc: Global,
    graph: &Graph,
    loops: u32,
    nodes: u32,
) -> Result<(), AllocError> {
    for jobs in [1, 4] {
        let gate = CountingGate::new(loops);
        expect_groups(rt, alloc, graph, jobs, &gate)?;
        expect_count(rt, gate.told_count(), nodes);
    }
    Ok(())
}
