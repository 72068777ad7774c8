// Rows of views and runs into the lent working tables.
ghost use Rattle.std.specs.Prelude.{◌+◌, ◌≤◌, ◌<◌, length};
ghost use Rattle.manifest_values.specs.Read.{many, view_at, run_at};
ghost use Rattle.manifest_rows.specs.Stored.{Laid, Filled, Steps, table, Under, ViewStep, two, Moves, RunStep};

use crate::Cursor;
use crate::heads_read::run_head;
use records::RunRow;
use tables::Window;

// Stores a row's words at row i, where the table has that row.
pub fn store(row: &[u64], i: usize, out: &mut [u64])
    requires { 0 < length row.now }
    ensures { Laid row.now i out.old out.new }
{
    let w = row.len();
    if i < out.len() / w {
        tables::put(row, out, i * w);
    }
}

// Reads a view and stores its row.
#[tactic(auto, using(crate::proofs::Turns::filled_not, crate::proofs::Views::view_filled, crate::proofs::Views::view_wrong))]
fn fill_view(s: &[u8], at: usize, views: &mut [u64], v: usize) -> Result<usize, usize>
    requires { v ≤ at }
    ensures { Filled (ViewStep s.now) Under (view_at s.now at) (table views.old v) (table views.new (v + 1)) result }
{
    let (row, next) = manifest_values::view_row(s, at)?;
    let words = records::view_words(row);
    store(&words, v, views);
    Ok(next)
}

// Reads n views in a row. A loop, so that a long list takes no more stack.
#[tactic(auto, using(crate::proofs::Turns::turns))]
pub fn fill_views(s: &[u8], at: usize, n: u64, views: &mut [u64], v: usize) -> Result<usize, usize>
    requires { v ≤ at }
    ensures { Filled (Steps (ViewStep s.now)) Under (many (view_at s.now) n at) (table views.old v) (table views.new (v + n)) result }
{
    let mut p = at;
    for k in 0..n {
        p = fill_view(s, p, views, v + k as usize)?;
    }
    Ok(p)
}

// Reads a run: its views, then its own row.
#[tactic(auto, using(crate::proofs::Runs::run_reads))]
fn fill_run(
    s: &[u8],
    at: usize,
    runs: &mut [u64],
    views: &mut [u64],
    c: Cursor,
) -> Result<(usize, Cursor), usize>
    requires { (c.outer ≤ at) × (c.inner ≤ at) }
    ensures { Moves (RunStep s.now) (run_at s.now at) (two runs.old views.old c) (λ d. two runs.new views.new d) result }
{
    let (h, p) = run_head(s, at)?;
    let q = fill_views(s, p, h.views, views, c.inner)?;
    let e = msgpack::rest_at(s, q, h.parts, 2)?;
    let count = h.views as usize;
    let words = records::run_words(RunRow {
        id: h.id,
        views: Window {
            first: c.inner,
            count,
        },
    });
    store(&words, c.outer, runs);
    let next = Cursor {
        outer: c.outer + 1,
        inner: c.inner + count,
    };
    Ok((e, next))
}

// Reads n runs in a row.
#[tactic(auto, using(crate::proofs::Turns::turns))]
pub fn fill_runs(
    s: &[u8],
    at: usize,
    n: u64,
    runs: &mut [u64],
    views: &mut [u64],
    c: Cursor,
) -> Result<(usize, Cursor), usize>
    requires { (c.outer ≤ at) × (c.inner ≤ at) }
    ensures { Moves (Steps (RunStep s.now)) (many (run_at s.now) n at) (two runs.old views.old c) (λ d. two runs.new views.new d) result }
{
    let mut p = at;
    let mut d = c;
    for _ in 0..n {
        (p, d) = fill_run(s, p, runs, views, d)?;
    }
    Ok((p, d))
}
