// The survey at its limits, run at full size: 2^53 paths pass and one more is PATHS; 4,096 nodes pass and 4,097 are SIZE. Prints the answer's
// number and, of a survey that was not refused, the distance and the count of the chain's end.
#![tactic(auto)]

ghost use Rattle.std.specs.Prelude.{◌≤◌, ◌<◌, length};

use answers::Refusal;
use graph::Graph;
use std::io;

const NODES: usize = 4097;

const EDGES: usize = 4096;

// The used fronts for as many nodes and edges.
const NARROW: usize = 65552;

const WIDE: usize = 8194;

const FLOATS: usize = 40966;

// The steps whose doubling gives 2^53 paths.
const STEPS: usize = 53;

fn main(rt: HostRuntime) -> io::Result<()> {
    let mut from = [0u32; EDGES];
    let mut to = [0u32; EDGES];
    let weight = [1.0; EDGES];
    doubled(&mut from, &mut to);
    print!(rt; "53 doubled steps:")?;
    show(&rt, 54, 106, STEPS, &from, &to, &weight)?;
    bypass(&mut from, &mut to);
    print!(rt; "and a single path of 53 hops:")?;
    show(&rt, 106, 159, STEPS, &from, &to, &weight)?;
    chain(&mut from, &mut to);
    print!(rt; "4096 nodes:")?;
    show(&rt, 4096, 4095, 4095, &from, &to, &weight)?;
    print!(rt; "4097 nodes:")?;
    show(&rt, 4097, 4096, 4096, &from, &to, &weight)
}

// Edges 0 to 105: two from each of the nodes 0 to 52 to the next one.
fn doubled(from: &mut [u32], to: &mut [u32])
    requires in_bounds { 106 ≤ length from.old }
    requires in_bounds_2 { 106 ≤ length to.old }
{
    for i in 0..106 {
        let v = i as u32 / 2;
        from[i] = v;
        to[i] = v + 1;
    }
}

// Edges 106 to 158: from node 0 over the nodes 54 to 105 to node 53.
fn bypass(from: &mut [u32], to: &mut [u32])
    requires in_bounds { 159 ≤ length from.old }
    requires in_bounds_2 { 159 ≤ length to.old }
{
    for i in 106..159 {
        from[i] = i as u32 - 53;
        to[i] = i as u32 - 52;
    }
    from[106] = 0;
    to[158] = 53;
}

// One edge from each node to the next one.
fn chain(from: &mut [u32], to: &mut [u32])
    requires in_bounds { 4096 ≤ length from.old }
    requires in_bounds_2 { 4096 ≤ length to.old }
{
    for i in 0..EDGES {
        from[i] = i as u32;
        to[i] = i as u32 + 1;
    }
}

// The survey from node 0 of the directed graph of the first edges, and what it gives the node `end`.
fn show<'a>(
    rt: &impl Print,
    nodes: usize,
    edges: usize,
    end: usize,
    from: &'a [u32],
    to: &'a [u32],
    weight: &'a [f64],
) -> io::Result<()>
    requires edges_in_bounds { edges ≤ length from.now }
    requires edges_in_bounds_2 { edges ≤ length to.now }
    requires edges_in_bounds_3 { edges ≤ length weight.now }
    requires end_bound { end < 4097 }
{
    let mut distances = [0u32; NODES];
    let mut counts = [0u64; NODES];
    let mut w32 = [0u32; NARROW];
    let mut w64 = [0u64; WIDE];
    let mut wf = [0.0; FLOATS];
    let graph = Graph {
        nodes,
        directed: true,
        from: &from[..edges],
        to: &to[..edges],
        weight: &weight[..edges],
    };
    let said = survey::survey(
        graph,
        0,
        &mut distances,
        &mut counts,
        &mut w32,
        &mut w64,
        &mut wf,
    );
    print(rt, said, distances[end], counts[end])
}

// The answer and, if it is DONE, the distance and the count.
fn print(rt: &impl Print, said: Result<(), Refusal>, distance: u32, count: u64) -> io::Result<()> {
    match said {
        Ok(()) => println!(rt; " 0, distance {distance}, count {count}"),
        Err(refusal) => {
            let answer = u32::from(refusal.answer);
            println!(rt; " {answer}")
        }
    }
}
