// Prints the neighbour rows of a few small graphs. The file `stdout` has them as document 01's rule gives them, worked out by hand:
// newest edge first, edges from the node, then, undirected, edges to it from another node; parallel edges each.
#![tactic(auto)]

ghost use Rattle.std.specs.Prelude.{◌<◌};

use graph::Graph;
use rows::Rows;
use std::io;

const NODES: usize = 4;

// Room for the rows of 4 nodes and 6 edges.
const EDGES: usize = 6;

const FRONT: usize = 17;

fn main(rt: HostRuntime) -> io::Result<()> {
    // 0-1, 0-1 again, 1-1, 2-1, 1-0, 3-3
    let from = [0u32, 0, 1, 2, 1, 3];
    let to = [1u32, 1, 1, 1, 0, 3];
    let weight = [1.0; 6];
    let graph = Graph {
        nodes: NODES,
        directed: true,
        from: &from,
        to: &to,
        weight: &weight,
    };
    println!(rt; "directed")?;
    show(&rt, graph)?;
    println!(rt; "undirected")?;
    let undirected = Graph {
        directed: false,
        ..graph
    };
    show(&rt, undirected)?;
    // no edges
    println!(rt; "no edges")?;
    let empty = Graph {
        from: &from[..0],
        to: &to[..0],
        weight: &weight[..0],
        ..undirected
    };
    show(&rt, empty)?;
    // an end that is no node
    let astray = [0u32, 0, 1, 2, 4, 3];
    println!(rt; "astray")?;
    show(
        &rt,
        Graph {
            to: &astray,
            ..graph
        },
    )
}

// Builds the rows of a graph with four nodes, and prints them.
fn show(rt: &impl Print, graph: Graph<'_>) -> io::Result<()> {
    if graph.nodes != NODES || EDGES < graph.from.len() {
        return Ok(());
    }
    let Ok(()) = graph::graph_refusal(graph, false, false) else {
        return println!(rt; "refused");
    };
    let mut w = [0u32; FRONT];
    rows::build_rows(graph, &mut w);
    let rows = Rows {
        nodes: NODES,
        cells: &w,
    };
    for v in 0..NODES {
        print_row(rt, rows, v)?;
    }
    Ok(())
}

// A node and its entries on a line.
fn print_row(rt: &impl Print, rows: Rows<'_>, v: usize) -> io::Result<()>
    requires { v < rows.nodes }
{
    print!(rt; "{v}:")?;
    for other in rows.row(v) {
        print!(rt; " {other}")?;
    }
    println!(rt)
}
