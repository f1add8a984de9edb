// The ordered pairs of edge betweenness by numbers: each row entry's, and each edge's total out of those that stand by number.
#![tactic(auto)]

ghost use Rattle.std.specs.Prelude.{◌≡◌, true, false, cond, ◌-◌, ◌≤◌, ltb, length};
ghost use Rattle.graph.specs.Pres.{Limits};
ghost use Rattle.pairs.specs.Numbers.{NumberPre, NumberPost, RowPre, RowNumbered, table_at};
ghost use Rattle.pairs.specs.Writes.{WalkPre, ForwardPost, NextPre, NextTotal, BackPre, BackTotal, BackPost};

// Where edge betweenness holds its pairs: from `beside` the number of each row entry's, from `totals` the total of each number, and from `marks` a
// number for each node, which is its mark while the pairs are numbered, and its cursor while the results are written.
#[derive(Clone, Copy)]
pub struct Table {
    pub beside: usize,
    pub marks: usize,
    pub totals: usize,
}

impl Table {
    // The table in the workspace of a graph of so many nodes and edges.
    pub fn of(nodes: usize, edges: usize) -> Table
        requires { Limits nodes edges }
        ensures { result ≡ table_at nodes edges }
    {
        Table {
            beside: nodes + 1 + 2 * edges,
            marks: 2 * nodes + 1 + 4 * edges,
            totals: 4 * nodes,
        }
    }
}

// Beside each row entry the number of its pair: the place of the first entry of the row that leads to the same node. Each node's mark is the last
// such place + 1, and 0 before there is one.
pub fn number_pairs(nodes: usize, table: Table, w32: &mut [u32])
    requires { NumberPre nodes table.beside table.marks w32.old }
    ensures { NumberPost nodes table.beside table.marks w32.old w32.new }
{
    regions::fill(w32, table.marks, nodes, 0);
    for v in 0..nodes {
        let a = w32[v] as usize;
        let e = w32[v + 1] as usize;
        number_row(nodes, table, a, e, w32);
    }
}

// The row entries at places a to e: beside each, the place of the first of them that leads to the same node. No mark is above a.
fn number_row(nodes: usize, table: Table, a: usize, e: usize, w32: &mut [u32])
    requires { RowPre nodes a e table.beside table.marks w32.old }
    ensures { RowNumbered nodes a e table.beside table.marks w32.old w32.new }
{
    let rows = nodes + 1;
    for p in a..e {
        let at = table.marks + w32[rows + p] as usize;
        let place = first_place(a as u32, p as u32, w32[at]);
        w32[at] = place + 1;
        w32[table.beside + p] = place;
    }
}

// The place before the mark, if the mark was set within the row that begins at a, and else p.
fn first_place(a: u32, p: u32, mark: u32) -> u32
    ensures { result ≡ cond (ltb a mark) (mark - 1) p }
{
    let marked = a < mark;
    if marked { mark - 1 } else { p }
}

// Each edge's total: its pair stands, from `beside`, at the cursor of its `from`, which then moves on. The edges go by from the last to the first,
// as the rows have them.
pub fn write_forward(
    nodes: usize,
    table: Table,
    from: &[u32],
    w32: &mut [u32],
    wf: &[f64],
    forward: &mut [f64],
)
    requires { WalkPre nodes false from.now from.now w32.old table.marks table.beside table.totals wf.now forward.old }
    ensures { ForwardPost nodes from.now w32.old table.marks table.beside table.totals wf.now forward.old w32.new forward.new }
{
    for e in (0..from.len()).rev() {
        forward[e] = next_total(table, from[e], w32, wf);
    }
}

// Each edge's total the other way round, by the cursor of its `to`; a self-loop has no entry of its own there, and the same total both ways.
pub fn write_back(
    nodes: usize,
    table: Table,
    from: &[u32],
    to: &[u32],
    w32: &mut [u32],
    wf: &[f64],
    forward: &[f64],
    back: &mut [f64],
)
    requires { WalkPre nodes true to.now from.now w32.old table.marks table.beside table.totals wf.now back.old × (length to.now ≤ length forward.now) }
    ensures { BackPost nodes from.now to.now w32.old table.marks table.beside table.totals wf.now forward.now back.old w32.new back.new }
{
    for e in (0..from.len()).rev() {
        back[e] = back_total(table, from[e], to[e], forward[e], w32, wf);
    }
}

// One edge's total the other way round.
fn back_total(table: Table, from: u32, to: u32, forward: f64, w32: &mut [u32], wf: &[f64]) -> f64
    requires { BackPre table.marks table.beside table.totals from to w32.old wf.now }
    ensures { BackTotal table.marks table.beside table.totals from to forward w32.old wf.now w32.new result }
{
    if from == to {
        return forward;
    }
    next_total(table, to, w32, wf)
}

// The total of the pair at the node's cursor, which then moves on.
fn next_total(table: Table, own: u32, w32: &mut [u32], wf: &[f64]) -> f64
    requires { NextPre table.marks table.beside table.totals own w32.old wf.now }
    ensures { NextTotal table.marks table.beside table.totals own w32.old wf.now w32.new result }
{
    let at = table.marks + own as usize;
    let place = w32[at];
    w32[at] = place + 1;
    wf[table.totals + w32[table.beside + place as usize] as usize]
}
