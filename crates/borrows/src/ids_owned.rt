// Owned ids. No key and no path is read, so the promises of these functions take no pool.
ghost use Rattle.std.specs.Prelude.{◌≡◌, [], ◌∷◌, ◌+◌, ◌*◌, ◌/◌, ◌^◌, ◌<◌, length};
ghost use Rattle.tables.specs.Layout.{joined};
ghost use Rattle.records.specs.Model.{segment_trees};
ghost use Rattle.records.specs.Row.{view_at, run_at, segment_at};
ghost use Rattle.records.specs.Decode.{view_in, views_in, run_in, runs_in, tree_in, segment_in, segments_in, borrows_in, manifest_in, lent_of};
ghost use Rattle.records.specs.Fill.{ids as id_fill};
ghost use Rattle.lawful.specs.Judge.{judged_of};
ghost use Rattle.measure.specs.Within.{run_views, tree_views};
ghost use Rattle.borrows.specs.Owned.{first_naming, is_borrowed, owned_by, owned_of};
ghost use Rattle.borrows.specs.Answer.{owned_given, owned_in};
ghost use Rattle.borrows.specs.Places.{put_at, put_from};

use copy::no_room;
use ids::{SstId, same};
use lawful::lawful;
use records::{
    Fill, Limits, ManifestRow, Refusal, Tables, TreeRow, borrow_at, id_at, id_words, run_at,
    segment_at, view_at,
};
use tables::{Window, held, put};

// Which borrow of the window first names `x`, or the number of all. The search is left at the first match.
// inner
pub fn first_naming(borrows: &[u64], w: Window, ids: &[u64], x: SstId) -> usize
    ensures { result ≡ first_naming (borrows_in borrows.now ids.now [] w) x }
{
    let n = held(w, borrows.len() / 9);
    let mut passed = 0;
    'lists: for k in 0..n {
        let b = borrow_at(borrows, w.first + k);
        let list = b.ids;
        let count = held(list, ids.len() / 2);
        for j in 0..count {
            if same(id_at(ids, list.first + j), x) {
                break 'lists;
            }
        }
        passed = k + 1;
    }
    passed
}

fn is_borrowed(borrows: &[u64], w: Window, ids: &[u64], x: SstId) -> bool
    ensures { result ≡ is_borrowed (borrows_in borrows.now ids.now [] w) x }
{
    first_naming(borrows, w, ids, x) < held(w, borrows.len() / 9)
}

// Puts `x` at place `at` of a list of ids, if there is one.
fn put_at(x: SstId, out: &mut [u64], at: usize)
    ensures { out.new ≡ put_at out.old at x }
{
    if at < out.len() / 2 {
        let row = id_words(x);
        put(&row, out, at * 2);
    }
}

// Puts the id of view `i`, if no borrow names it, and gives the next place.
fn own_view(
    views: &[u64],
    i: usize,
    borrows: &[u64],
    b: Window,
    ids: &[u64],
    out: &mut [u64],
    at: usize,
) -> usize
    requires i_in_bounds { i < length views.now / 16 }
    requires i_bound { at + length (owned_by (borrows_in borrows.now ids.now [] b) (view_in [] (view_at views.now i) ∷ [])) < 2 ^ 64 }
    ensures value { result ≡ at + length (owned_by (borrows_in borrows.now ids.now [] b) (view_in [] (view_at views.now i) ∷ [])) }
    ensures out_after { out.new ≡ put_from out.old at (owned_by (borrows_in borrows.now ids.now [] b) (view_in [] (view_at views.now i) ∷ [])) }
{
    let v = view_at(views, i);
    let x = v.sst;
    if is_borrowed(borrows, b, ids, x) {
        return at;
    }
    put_at(x, out, at);
    at + 1
}

fn own_views(
    views: &[u64],
    w: Window,
    borrows: &[u64],
    b: Window,
    ids: &[u64],
    out: &mut [u64],
    at: usize,
) -> usize
    requires { at + length (owned_by (borrows_in borrows.now ids.now [] b) (views_in views.now [] w)) < 2 ^ 64 }
    ensures value { result ≡ at + length (owned_by (borrows_in borrows.now ids.now [] b) (views_in views.now [] w)) }
    ensures out_after { out.new ≡ put_from out.old at (owned_by (borrows_in borrows.now ids.now [] b) (views_in views.now [] w)) }
{
    let n = held(w, views.len() / 16);
    let first = w.first;
    let mut to = at;
    for k in 0..n {
        to = own_view(views, first + k, borrows, b, ids, out, to);
    }
    to
}

fn own_run(
    runs: &[u64],
    i: usize,
    views: &[u64],
    borrows: &[u64],
    b: Window,
    ids: &[u64],
    out: &mut [u64],
    at: usize,
) -> usize
    requires i_in_bounds { i < length runs.now / 3 }
    requires i_bound { at + length (owned_by (borrows_in borrows.now ids.now [] b) (run_in views.now [] (run_at runs.now i)).views) < 2 ^ 64 }
    ensures value { result ≡ at + length (owned_by (borrows_in borrows.now ids.now [] b) (run_in views.now [] (run_at runs.now i)).views) }
    ensures out_after { out.new ≡ put_from out.old at (owned_by (borrows_in borrows.now ids.now [] b) (run_in views.now [] (run_at runs.now i)).views) }
{
    let r = run_at(runs, i);
    let w = r.views;
    own_views(views, w, borrows, b, ids, out, at)
}

fn own_runs(
    runs: &[u64],
    w: Window,
    views: &[u64],
    borrows: &[u64],
    b: Window,
    ids: &[u64],
    out: &mut [u64],
    at: usize,
) -> usize
    requires { at + length (owned_by (borrows_in borrows.now ids.now [] b) (joined run_views (runs_in runs.now views.now [] w))) < 2 ^ 64 }
    ensures value { result ≡ at + length (owned_by (borrows_in borrows.now ids.now [] b) (joined run_views (runs_in runs.now views.now [] w))) }
    ensures out_after { out.new ≡ put_from out.old at (owned_by (borrows_in borrows.now ids.now [] b) (joined run_views (runs_in runs.now views.now [] w))) }
{
    let n = held(w, runs.len() / 3);
    let first = w.first;
    let mut to = at;
    for k in 0..n {
        to = own_run(runs, first + k, views, borrows, b, ids, out, to);
    }
    to
}

// A tree's L0, then its runs.
fn own_tree(
    t: TreeRow,
    runs: &[u64],
    views: &[u64],
    borrows: &[u64],
    b: Window,
    ids: &[u64],
    out: &mut [u64],
    at: usize,
) -> usize
    requires { at + length (owned_by (borrows_in borrows.now ids.now [] b) (tree_views (tree_in runs.now views.now [] t))) < 2 ^ 64 }
    ensures value { result ≡ at + length (owned_by (borrows_in borrows.now ids.now [] b) (tree_views (tree_in runs.now views.now [] t))) }
    ensures out_after { out.new ≡ put_from out.old at (owned_by (borrows_in borrows.now ids.now [] b) (tree_views (tree_in runs.now views.now [] t))) }
{
    let l0 = t.l0;
    let compacted = t.compacted;
    let past = own_views(views, l0, borrows, b, ids, out, at);
    own_runs(runs, compacted, views, borrows, b, ids, out, past)
}

fn own_segment(
    segments: &[u64],
    i: usize,
    runs: &[u64],
    views: &[u64],
    borrows: &[u64],
    b: Window,
    ids: &[u64],
    out: &mut [u64],
    at: usize,
) -> usize
    requires i_in_bounds { i < length segments.now / 12 }
    requires i_bound { at + length (owned_by (borrows_in borrows.now ids.now [] b) (tree_views (segment_in runs.now views.now [] (segment_at segments.now i)).tree)) < 2 ^ 64 }
    ensures value { result ≡ at + length (owned_by (borrows_in borrows.now ids.now [] b) (tree_views (segment_in runs.now views.now [] (segment_at segments.now i)).tree)) }
    ensures out_after { out.new ≡ put_from out.old at (owned_by (borrows_in borrows.now ids.now [] b) (tree_views (segment_in runs.now views.now [] (segment_at segments.now i)).tree)) }
{
    let s = segment_at(segments, i);
    let t = s.tree;
    own_tree(t, runs, views, borrows, b, ids, out, at)
}

fn own_segments(
    segments: &[u64],
    w: Window,
    runs: &[u64],
    views: &[u64],
    borrows: &[u64],
    b: Window,
    ids: &[u64],
    out: &mut [u64],
    at: usize,
) -> usize
    requires { at + length (owned_by (borrows_in borrows.now ids.now [] b) (joined tree_views (segment_trees (segments_in segments.now runs.now views.now [] w)))) < 2 ^ 64 }
    ensures value { result ≡ at + length (owned_by (borrows_in borrows.now ids.now [] b) (joined tree_views (segment_trees (segments_in segments.now runs.now views.now [] w)))) }
    ensures out_after { out.new ≡ put_from out.old at (owned_by (borrows_in borrows.now ids.now [] b) (joined tree_views (segment_trees (segments_in segments.now runs.now views.now [] w)))) }
{
    let n = held(w, segments.len() / 12);
    let first = w.first;
    let mut to = at;
    for k in 0..n {
        to = own_segment(segments, first + k, runs, views, borrows, b, ids, out, to);
    }
    to
}

// The unsegmented tree, then the segments.
// inner
pub fn own_all(
    segments: &[u64],
    views: &[u64],
    runs: &[u64],
    borrows: &[u64],
    ids: &[u64],
    m: ManifestRow,
    out: &mut [u64],
    at: usize,
) -> usize
    requires { at + length (owned_of (manifest_in (record { segments = segments.now; views = views.now; runs = runs.now; borrows = borrows.now; ids = ids.now; pool = [] }) m)) < 2 ^ 64 }
    ensures value { result ≡ at + length (owned_of (manifest_in (record { segments = segments.now; views = views.now; runs = runs.now; borrows = borrows.now; ids = ids.now; pool = [] }) m)) }
    ensures out_after { out.new ≡ put_from out.old at (owned_of (manifest_in (record { segments = segments.now; views = views.now; runs = runs.now; borrows = borrows.now; ids = ids.now; pool = [] }) m)) }
{
    let t = m.tree;
    let w = m.segments;
    let b = m.external_dbs;
    let past = own_tree(t, runs, views, borrows, b, ids, out, at);
    own_segments(segments, w, runs, views, borrows, b, ids, out, past)
}

pub fn id_fill(n: usize) -> Fill
    ensures { result ≡ id_fill n }
{
    Fill {
        segments: 0,
        views: 0,
        runs: 0,
        borrows: 0,
        ids: n,
        bytes: 0,
    }
}

// How many ids are owned: the same walk, with no place to put them.
pub fn count_owned(
    segments: &[u64],
    views: &[u64],
    runs: &[u64],
    borrows: &[u64],
    ids: &[u64],
    m: ManifestRow,
) -> usize
    requires { length (owned_of (manifest_in (record { segments = segments.now; views = views.now; runs = runs.now; borrows = borrows.now; ids = ids.now; pool = [] }) m)) < 2 ^ 64 }
    ensures { result ≡ length (owned_of (manifest_in (record { segments = segments.now; views = views.now; runs = runs.now; borrows = borrows.now; ids = ids.now; pool = [] }) m)) }
{
    let mut none = [0u64; 1];
    own_all(segments, views, runs, borrows, ids, m, &mut none, 0)
}

// The ids that a lawful manifest uses and borrows from no one.
// inner
pub fn owned_judged(
    lim: Limits,
    tables: Tables,
    m: ManifestRow,
    out_ids: &mut [u64],
) -> Result<usize, Refusal>
    requires { judged_of lim (lent_of tables) m ≡ Ok tt }
    ensures { record { answer = result; out = out_ids.new } ≡ owned_given lim (manifest_in (lent_of tables.entry) m) out_ids.old }
{
    let n = count_owned(
        tables.segments,
        tables.views,
        tables.runs,
        tables.borrows,
        tables.ids,
        m,
    );
    let room = id_fill(out_ids.len() / 2);
    let result = id_fill(n);
    if no_room(lim, room, result) {
        return Err(Refusal::NoRoom);
    }
    own_all(
        tables.segments,
        tables.views,
        tables.runs,
        tables.borrows,
        tables.ids,
        m,
        out_ids,
        0,
    );
    Ok(n)
}

// The ids that a manifest uses and borrows from no one, in record order.
pub fn owned_ssts(
    lim: Limits,
    tables: Tables,
    m: ManifestRow,
    out_ids: &mut [u64],
) -> Result<usize, Refusal>
    ensures { record { answer = result; out = out_ids.new } ≡ owned_in lim (lent_of tables.entry) m out_ids.old }
{
    match lawful(lim, tables, m) {
        Ok(()) => { owned_judged(lim, tables, m, out_ids) }
        Err(rule) => Err(Refusal::Unlawful(rule)),
    }
}
