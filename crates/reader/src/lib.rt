// Reads a job text: the eight lines of its head with the settings that its measure uses, then its edges into lent slices.
// Weights, factor and tolerance stay bits; `weights_of` makes doubles of the weights.
#![tactic(auto)]

ghost use Rattle.std.specs.Prelude.{◌≡◌, map, min, set, Float};
ghost use Rattle.std.proofs.lemmas.List.Edits.{sets};
ghost use Rattle.std.specs.Float.{binary64};
ghost use Rattle.std.specs.Float.Ieee.{of_bits};
ghost use Rattle.reader.specs.Rules.{most_of};
ghost use Rattle.reader.specs.Edges.{edges_from, end_of, Stored};
ghost use Rattle.reader.specs.Job.{head_of, Taken};

use lines::{FaultyLine, Measure, Most, Top};

// What a job asks, its edges aside.
#[derive(Clone, Copy)]
pub struct Head {
    pub measure: Measure,
    pub top: Top,
    pub edges: u64,
}

// Reads a job text; its edges go to the slices as far as these reach. An error is the first faulty line, numbered from 1.
#[tactic(auto, using(crate::proofs::Jobs::by_head))]
pub fn read_job(
    s: &[u8],
    from: &mut [u32],
    to: &mut [u32],
    bits: &mut [u64],
) -> Result<Head, FaultyLine>
    ensures { Taken s.now from.old to.old bits.old result from.new to.new bits.new }
{
    let (head, at) = read_head(s)?;
    read_edges(s, at, head.edges, from, to, bits)?;
    Ok(head)
}

// The settings that a measure uses, by the largest value of each.
fn most_of(measure: Measure) -> Most
    ensures { result ≡ most_of measure }
{
    let any = u64::MAX;
    let none = Most {
        option: 0,
        rounds: 0,
        factor: 0,
        tolerance: 0,
    };
    match measure {
        Measure::Betweenness => Most { option: 1, ..none },
        Measure::Pagerank | Measure::Personalized | Measure::Katz => Most {
            rounds: any,
            factor: any,
            tolerance: any,
            ..none
        },
        Measure::Eigenvector => Most {
            rounds: any,
            tolerance: any,
            ..none
        },
        Measure::Reaching | Measure::Voterank => Most {
            option: any,
            ..none
        },
        Measure::Laplacian | Measure::Degree => none,
    }
}

// The eight lines before the edges, and where the next one begins; the first faulty one decides.
#[tactic(auto, unfolding(crate::specs::Job::head_of), using(lines::proofs::Tops::fault_below))]
fn read_head(s: &[u8]) -> Result<(Head, usize), FaultyLine>
    ensures { result ≡ head_of s.now }
{
    let (measure, a) = lines::measure_line(b"measure=", s, 0).ok_or(FaultyLine { number: 1 })?;
    let most = most_of(measure);
    let (top, b) = lines::read_top(most, s, a).map_err(|fault| FaultyLine {
        number: fault.number + 2,
    })?;
    let (edges, c) = lines::decimal_line(b"edges=", s, b).ok_or(FaultyLine { number: 8 })?;
    Ok((
        Head {
            measure,
            top,
            edges,
        },
        c,
    ))
}

// Reads m edge lines from start on; the text ends after them. The first faulty line decides. A function of its own in the
// compiled code too: its loops then have the registers to themselves, whatever stands around them.
#[inline(never)]
#[tactic(auto, using(crate::proofs::Reading::exits))]
fn read_edges(
    s: &[u8],
    start: usize,
    m: u64,
    from: &mut [u32],
    to: &mut [u32],
    bits: &mut [u64],
) -> Result<(), FaultyLine>
    ensures { (result ≡ (edges_from s.now m 0 start).read) × Stored (edges_from s.now m 0 start).given from.old to.old bits.old from.new to.new bits.new }
{
    let mut at = start;
    for k in 0..m {
        let Some((edge, next)) = lines::edge_line(s, at) else {
            return Err(FaultyLine { number: k + 9 });
        };
        store(from, k as usize, narrowed(edge.from));
        store(to, k as usize, narrowed(edge.to));
        store(bits, k as usize, edge.weight);
        at = next;
    }
    if at < s.len() {
        Err(FaultyLine { number: m + 9 })
    } else {
        Ok(())
    }
}

// Stores a value where the slice has the place.
#[tactic(auto, using(crate::proofs::Weights::beyond))]
fn store<T: Copy>(slice: &mut [T], k: usize, x: T)
    ensures { slice.new ≡ set slice.old k x }
{
    if k < slice.len() {
        slice[k] = x;
    }
}

// An end of 32 bits. A number of more bits becomes the largest of 32.
fn narrowed(x: u64) -> u32
    ensures { result ≡ end_of x }
{
    u32::try_from(x).unwrap_or(u32::MAX)
}

// Makes doubles of weights' bits, as far as the weights reach.
pub fn weights_of(bits: &[u64], weights: &mut [f64])
    ensures { weights.new ≡ sets weights.old 0 (map (of_bits binary64) bits.now) }
{
    for (k, b) in bits.iter().enumerate() {
        store(weights, k, text::float_of(*b));
    }
}
