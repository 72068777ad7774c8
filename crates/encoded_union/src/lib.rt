// The union of encoded manifests: bytes in, bytes out. All sources are laid out in one set of working tables, behind the paths' bytes.
#![tactic(auto)]

ghost use Rattle.std.specs.Prelude.{◌≡◌, true, false, ◌+◌, ◌-◌, ◌*◌, ◌≤◌, ◌<◌, length};
ghost use Rattle.tables.specs.Layout.{write};
ghost use Rattle.records.specs.Fill.{plus, bytes, fits};
ghost use Rattle.records.specs.Row.{at};
ghost use Rattle.copy.specs.Copy.{room_of};
ghost use Rattle.manifest_rows.specs.Stored.{lent};
ghost use Rattle.manifest_read.specs.Answer.{work_room};
ghost use Rattle.unite_judge.specs.Judging.{most_sources};
ghost use Rattle.encoded.specs.Encoded.{encoded_of, long_of};
ghost use Rattle.encoded_union.specs.Union.{start_of, piece_of, bad_piece, some_bad, behind};
ghost use Rattle.encoded_union.specs.Steps.{place_of, name_cell, source_words, source_into, Gathered};

use ids::Uuid;
use keys::part;
use manifest_read::read_at;
use records::{Fill, Limits, ManifestRow, Place, Refusal, SegmentRow, segment_words};
use tables::{ix, put};

// ---- a source's row

fn name_code(x: Option<Place>) -> u64
    ensures { result ≡ (name_cell x).code }
{
    u64::from(x.is_some())
}

fn name_place(x: Option<Place>) -> Place
    ensures { (result.at ≡ (name_cell x).a) × (result.len ≡ (name_cell x).b) }
{
    x.unwrap_or(Place { at: 0, len: 0 })
}

// The words of the row of a source.
fn source_words(m: ManifestRow, p: Place, u: Uuid) -> [u64; 22]
    ensures { result ≡ source_words m p u }
{
    let name = name_place(m.segment_extractor_name);
    let w = segment_words(SegmentRow {
        prefix: p,
        tree: m.tree,
    });
    [
        w[2],
        w[3],
        w[4],
        w[5],
        w[6],
        w[7],
        w[8],
        w[9],
        w[10],
        w[11],
        m.segments.first as u64,
        m.segments.count as u64,
        name_code(m.segment_extractor_name),
        name.at as u64,
        name.len as u64,
        m.last_l0_seq,
        m.external_dbs.first as u64,
        m.external_dbs.count as u64,
        w[0],
        w[1],
        u.0,
        u.1,
    ]
}

// Writes a source's row from word `b` on.
fn put_source(m: ManifestRow, p: Place, u: Uuid, rows: &mut [u64], b: usize)
    requires { b + 22 ≤ length rows.old }
    ensures { rows.new ≡ write rows.old b (source_words m p u) }
{
    put(&source_words(m, p, u), rows, b);
}

// ---- the parts of the call

// Where the `k`-th part begins.
fn start_of(ends: &[u64], k: usize) -> usize
    requires { k < length ends.now }
    ensures { result ≡ start_of ends.now k }
{
    if k == 0 {
        return 0;
    }
    ix(ends[k - 1])
}

// Where it stands.
fn place_of(ends: &[u64], k: usize) -> Place
    requires { (k < length ends.now) × (start_of ends.now k ≤ at ends.now k) }
    ensures { result ≡ place_of ends.now k }
{
    let from = start_of(ends, k);
    Place {
        at: from,
        len: ix(ends[k]) - from,
    }
}

// ---- reading

// Reads a source behind what fills `c`, and writes its row from word `b` on.
fn read_piece(
    lim: Limits,
    s: &[u8],
    p: Place,
    u: Uuid,
    segments: &mut [u64],
    views: &mut [u64],
    runs: &mut [u64],
    borrows: &mut [u64],
    ids: &mut [u64],
    all_segments: &mut [u64],
    all_views: &mut [u64],
    all_runs: &mut [u64],
    all_borrows: &mut [u64],
    all_ids: &mut [u64],
    all_pool: &mut [u8],
    c: Fill,
    rows: &mut [u64],
    b: usize,
) -> Result<(), Refusal>
    requires s_value { (long_of s.now ≡ false) × (b + 22 ≤ length rows.old) }
    requires s_value_2 { (fits lim.fill (work_room lim (lent segments.old views.old runs.old borrows.old ids.old s.now)) ≡ true) × (fits (plus c lim.fill) (room_of (lent all_segments.old all_views.old all_runs.old all_borrows.old all_ids.old all_pool.old)) ≡ true) }
    ensures { record { answer = result; out = lent all_segments.new all_views.new all_runs.new all_borrows.new all_ids.new all_pool.new; rows = rows.new } ≡ source_into c (lent all_segments.old all_views.old all_runs.old all_borrows.old all_ids.old all_pool.old) rows.old b p u (encoded_of lim s.now) }
{
    let m = read_at(
        lim,
        s,
        segments,
        views,
        runs,
        borrows,
        ids,
        all_segments,
        all_views,
        all_runs,
        all_borrows,
        all_ids,
        all_pool,
        c,
    )?;
    put_source(m, p, u, rows, b);
    Ok(())
}

// Reads the `k`-th source.
fn read_one(
    lim: Limits,
    s: &[u8],
    ends: &[u64],
    path_ends: &[u64],
    checkpoints: &[u64],
    k: usize,
    segments: &mut [u64],
    views: &mut [u64],
    runs: &mut [u64],
    borrows: &mut [u64],
    ids: &mut [u64],
    all_segments: &mut [u64],
    all_views: &mut [u64],
    all_runs: &mut [u64],
    all_borrows: &mut [u64],
    all_ids: &mut [u64],
    all_pool: &mut [u8],
    c: Fill,
    rows: &mut [u64],
) -> Result<(), Refusal>
    requires k_lt_most_sources { k < most_sources }
    requires k_in_bounds { (k < length ends.now) × (start_of ends.now k ≤ at ends.now k) × (long_of (piece_of s.now ends.now k) ≡ false) }
    requires k_in_bounds_2 { (k < length path_ends.now) × (start_of path_ends.now k ≤ at path_ends.now k) × (k * 2 + 2 ≤ length checkpoints.now) × (k * 22 + 22 ≤ length rows.old) }
    requires s_value { (fits lim.fill (work_room lim (lent segments.old views.old runs.old borrows.old ids.old s.now)) ≡ true) × (fits (plus c lim.fill) (room_of (lent all_segments.old all_views.old all_runs.old all_borrows.old all_ids.old all_pool.old)) ≡ true) }
    ensures { record { answer = result; out = lent all_segments.new all_views.new all_runs.new all_borrows.new all_ids.new all_pool.new; rows = rows.new } ≡ source_into c (lent all_segments.old all_views.old all_runs.old all_borrows.old all_ids.old all_pool.old) rows.old (k * 22) (place_of path_ends.now k) (at checkpoints.now (k * 2), at checkpoints.now (k * 2 + 1)) (encoded_of lim (piece_of s.now ends.now k)) }
{
    let p = place_of(path_ends, k);
    let u = Uuid(checkpoints[k * 2], checkpoints[k * 2 + 1]);
    let e = place_of(ends, k);
    let piece = part(s, e.at, e.len);
    read_piece(
        lim,
        piece,
        p,
        u,
        segments,
        views,
        runs,
        borrows,
        ids,
        all_segments,
        all_views,
        all_runs,
        all_borrows,
        all_ids,
        all_pool,
        c,
        rows,
        k * 22,
    )
}

// Behind one more manifest within L1, where there is room for it.
fn next(c: Fill, most: Fill, room: Fill) -> Fill
    requires { fits (plus c most) room ≡ true }
    ensures { result ≡ plus c most }
{
    Fill {
        segments: c.segments + most.segments,
        views: c.views + most.views,
        runs: c.runs + most.runs,
        borrows: c.borrows + most.borrows,
        ids: c.ids + most.ids,
        bytes: c.bytes + most.bytes,
    }
}

// Reads all sources behind the bytes of the paths, in given order.
// inner
pub fn read_sources(
    lim: Limits,
    s: &[u8],
    ends: &[u64],
    paths: &[u8],
    path_ends: &[u64],
    checkpoints: &[u64],
    segments: &mut [u64],
    views: &mut [u64],
    runs: &mut [u64],
    borrows: &mut [u64],
    ids: &mut [u64],
    all_segments: &mut [u64],
    all_views: &mut [u64],
    all_runs: &mut [u64],
    all_borrows: &mut [u64],
    all_ids: &mut [u64],
    all_pool: &mut [u8],
    rows: &mut [u64],
) -> Result<(), Refusal>
    requires path_ends_len { (length path_ends.now ≡ length ends.now) × (length checkpoints.now ≡ length ends.now * 2) × (length ends.now * 22 ≤ length rows.old) }
    requires ends_value { (some_bad 0x1_0000 (length s.now) ends.now (length ends.now) ≡ false) × (some_bad lim.path (length paths.now) path_ends.now (length ends.now) ≡ false) }
    requires s_value { (fits lim.fill (work_room lim (lent segments.old views.old runs.old borrows.old ids.old s.now)) ≡ true) × (fits (behind lim.fill (bytes (length paths.now)) (length ends.now)) (room_of (lent all_segments.old all_views.old all_runs.old all_borrows.old all_ids.old all_pool.old)) ≡ true) }
    requires ends_len_bound { length ends.now ≤ most_sources }
    ensures { Gathered lim s.now ends.now paths.now path_ends.now checkpoints.now (length ends.now) result (lent all_segments.new all_views.new all_runs.new all_borrows.new all_ids.new all_pool.new) rows.new }
{
    let room = Fill {
        segments: all_segments.len() / 12,
        views: all_views.len() / 16,
        runs: all_runs.len() / 3,
        borrows: all_borrows.len() / 9,
        ids: all_ids.len() / 2,
        bytes: all_pool.len(),
    };
    let mut c = Fill {
        segments: 0,
        views: 0,
        runs: 0,
        borrows: 0,
        ids: 0,
        bytes: put(paths, all_pool, 0),
    };
    for k in 0..ends.len() {
        read_one(
            lim,
            s,
            ends,
            path_ends,
            checkpoints,
            k,
            segments,
            views,
            runs,
            borrows,
            ids,
            all_segments,
            all_views,
            all_runs,
            all_borrows,
            all_ids,
            all_pool,
            c,
            rows,
        )?;
        c = next(c, lim.fill, room);
    }
    Ok(())
}

// ---- the form of the call

// Whether the `k`-th part ends before it begins, passes the `n` bytes that there are, or is longer than it may be.
fn bad_piece(most: usize, n: usize, ends: &[u64], k: usize) -> bool
    requires { k < length ends.now }
    ensures { result ≡ bad_piece most n ends.now k }
{
    let from = start_of(ends, k);
    let end = ix(ends[k]);
    if end < from || n < end {
        return true;
    }
    most < end - from
}

// Whether some of the first `count` parts is such.
// inner
pub fn some_bad(most: usize, n: usize, ends: &[u64], count: usize) -> bool
    requires { count ≤ length ends.now }
    ensures { result ≡ some_bad most n ends.now count }
{
    for k in 0..count {
        if bad_piece(most, n, ends, k) {
            return true;
        }
    }
    false
}
