// The borrows of a clone: those of the parent with new finals, and one for the parent itself.
ghost use Rattle.std.specs.Prelude.{◌≡◌, true, [], ◌+◌, ◌*◌, ◌/◌, ◌≤◌, ◌<◌, length};
ghost use Rattle.tables.specs.Layout.{write, joined};
ghost use Rattle.tables.specs.Window.{held_of};
ghost use Rattle.records.specs.Row.{borrow_at};
ghost use Rattle.records.specs.Words.{borrow_words};
ghost use Rattle.records.specs.Layout.{borrow_row, borrows_laid, borrow_ids, borrow_path};
ghost use Rattle.records.specs.Decode.{borrow_in, borrows_in, manifest_in, lent_of};
ghost use Rattle.records.specs.Fill.{plus, sum, borrow_fill};
ghost use Rattle.borrows.specs.Owned.{owned_of};
ghost use Rattle.borrows.specs.Clone.{uuids_of, fresh_at, final_of, renewed, renewed_all, of_parent, cloned_borrows, lacks_final, refuses15};

use crate::ids_owned::own_all;
use emit::{put_borrow, put_borrow_row};
use ids::Uuid;
use records::{BorrowRow, Fill, ManifestRow, Place, Tables, borrow_at};
use tables::{Window, held, put};

fn is_missing(f: Option<Uuid>) -> bool
    ensures { result ≡ lacks_final f }
{
    f.is_none()
}

// Whether some borrow of the window has no final checkpoint.
// inner
pub fn lacks_final(borrows: &[u64], w: Window) -> bool
    ensures { result ≡ refuses15 (borrows_in borrows.now [] [] w) }
{
    let n = held(w, borrows.len() / 9);
    for k in 0..n {
        let b = borrow_at(borrows, w.first + k);
        let f = b.fin;
        if is_missing(f) {
            return true;
        }
    }
    false
}

fn final_of(f: Option<Uuid>) -> Uuid
    ensures { result ≡ final_of f }
{
    match f {
        None => Uuid(0, 0),
        Some(u) => u,
    }
}

fn fresh_at(fresh: &[u64], n: usize) -> Uuid
    requires { n < length fresh.now / 2 }
    ensures { result ≡ fresh_at (uuids_of fresh.now) n }
{
    Uuid(fresh[n * 2], fresh[n * 2 + 1])
}

// The row of a borrow whose source is its final checkpoint, with a new final one.
fn renew(b: BorrowRow, u: Uuid) -> BorrowRow
    ensures { result ≡ record { path = b.path; source = final_of b.fin; fin = Some u; ids = b.ids } }
{
    let path = b.path;
    let ids = b.ids;
    let f = b.fin;
    let source = final_of(f);
    BorrowRow {
        path,
        source,
        fin: Some(u),
        ids,
    }
}

// Appends borrow `i` of a table, renewed with fresh UUID `n`.
fn put_renewed_at(
    borrows: &[u64],
    i: usize,
    ids: &[u64],
    pool: &[u8],
    fresh: &[u64],
    n: usize,
    out_borrows: &mut [u64],
    out_ids: &mut [u64],
    out_pool: &mut [u8],
    c: Fill,
) -> Fill
    requires i_in_bounds { i < length borrows.now / 9 }
    requires n_in_bounds { n < length fresh.now / 2 }
    requires n_in_bounds_2 { (c.borrows + (borrow_fill (renewed (borrow_in ids.now pool.now (borrow_at borrows.now i)) (fresh_at (uuids_of fresh.now) n))).borrows) * 9 ≤ length out_borrows.old }
    requires n_in_bounds_3 { (c.ids + (borrow_fill (renewed (borrow_in ids.now pool.now (borrow_at borrows.now i)) (fresh_at (uuids_of fresh.now) n))).ids) * 2 ≤ length out_ids.old }
    requires n_in_bounds_4 { c.bytes + (borrow_fill (renewed (borrow_in ids.now pool.now (borrow_at borrows.now i)) (fresh_at (uuids_of fresh.now) n))).bytes ≤ length out_pool.old }
    ensures value { result ≡ plus c (borrow_fill (renewed (borrow_in ids.now pool.now (borrow_at borrows.now i)) (fresh_at (uuids_of fresh.now) n))) }
    ensures out_borrows_after { out_borrows.new ≡ write out_borrows.old (c.borrows * 9) (borrow_words (borrow_row c (renewed (borrow_in ids.now pool.now (borrow_at borrows.now i)) (fresh_at (uuids_of fresh.now) n)))) }
    ensures out_ids_after { out_ids.new ≡ write out_ids.old (c.ids * 2) (borrow_ids (renewed (borrow_in ids.now pool.now (borrow_at borrows.now i)) (fresh_at (uuids_of fresh.now) n))) }
    ensures out_pool_after { out_pool.new ≡ write out_pool.old c.bytes (borrow_path (renewed (borrow_in ids.now pool.now (borrow_at borrows.now i)) (fresh_at (uuids_of fresh.now) n))) }
{
    let b = borrow_at(borrows, i);
    let u = fresh_at(fresh, n);
    let row = renew(b, u);
    put_borrow(row, ids, pool, out_borrows, out_ids, out_pool, c)
}

// Appends the borrows of a window, each renewed.
fn put_renewed(
    borrows: &[u64],
    w: Window,
    ids: &[u64],
    pool: &[u8],
    fresh: &[u64],
    out_borrows: &mut [u64],
    out_ids: &mut [u64],
    out_pool: &mut [u8],
    c: Fill,
) -> Fill
    requires borrows_in_bounds { held_of w (length borrows.now / 9) ≤ length fresh.now / 2 }
    requires w_in_bounds { (c.borrows + (sum borrow_fill (renewed_all (uuids_of fresh.now) 0 (borrows_in borrows.now ids.now pool.now w))).borrows) * 9 ≤ length out_borrows.old }
    requires w_in_bounds_2 { (c.ids + (sum borrow_fill (renewed_all (uuids_of fresh.now) 0 (borrows_in borrows.now ids.now pool.now w))).ids) * 2 ≤ length out_ids.old }
    requires w_in_bounds_3 { c.bytes + (sum borrow_fill (renewed_all (uuids_of fresh.now) 0 (borrows_in borrows.now ids.now pool.now w))).bytes ≤ length out_pool.old }
    ensures value { result ≡ plus c (sum borrow_fill (renewed_all (uuids_of fresh.now) 0 (borrows_in borrows.now ids.now pool.now w))) }
    ensures out_borrows_after { out_borrows.new ≡ write out_borrows.old (c.borrows * 9) (borrows_laid c (renewed_all (uuids_of fresh.now) 0 (borrows_in borrows.now ids.now pool.now w))) }
    ensures out_ids_after { out_ids.new ≡ write out_ids.old (c.ids * 2) (joined borrow_ids (renewed_all (uuids_of fresh.now) 0 (borrows_in borrows.now ids.now pool.now w))) }
    ensures out_pool_after { out_pool.new ≡ write out_pool.old c.bytes (joined borrow_path (renewed_all (uuids_of fresh.now) 0 (borrows_in borrows.now ids.now pool.now w))) }
{
    let n = held(w, borrows.len() / 9);
    let first = w.first;
    let mut to = c;
    for k in 0..n {
        to = put_renewed_at(
            borrows,
            first + k,
            ids,
            pool,
            fresh,
            k,
            out_borrows,
            out_ids,
            out_pool,
            to,
        );
    }
    to
}

// Appends the borrow from the parent, which names the owned ids.
fn put_parent(
    segments: &[u64],
    views: &[u64],
    runs: &[u64],
    borrows: &[u64],
    ids: &[u64],
    m: ManifestRow,
    path: &[u8],
    checkpoint: Uuid,
    u: Uuid,
    out_borrows: &mut [u64],
    out_ids: &mut [u64],
    out_pool: &mut [u8],
    c: Fill,
)
    requires m_in_bounds { (c.borrows + (borrow_fill (of_parent path.now checkpoint u (owned_of (manifest_in (record { segments = segments.now; views = views.now; runs = runs.now; borrows = borrows.now; ids = ids.now; pool = [] }) m)))).borrows) * 9 ≤ length out_borrows.old }
    requires m_in_bounds_2 { (c.ids + (borrow_fill (of_parent path.now checkpoint u (owned_of (manifest_in (record { segments = segments.now; views = views.now; runs = runs.now; borrows = borrows.now; ids = ids.now; pool = [] }) m)))).ids) * 2 ≤ length out_ids.old }
    requires m_in_bounds_3 { c.bytes + (borrow_fill (of_parent path.now checkpoint u (owned_of (manifest_in (record { segments = segments.now; views = views.now; runs = runs.now; borrows = borrows.now; ids = ids.now; pool = [] }) m)))).bytes ≤ length out_pool.old }
    ensures out_borrows_after { out_borrows.new ≡ write out_borrows.old (c.borrows * 9) (borrow_words (borrow_row c (of_parent path.now checkpoint u (owned_of (manifest_in (record { segments = segments.now; views = views.now; runs = runs.now; borrows = borrows.now; ids = ids.now; pool = [] }) m))))) }
    ensures out_ids_after { out_ids.new ≡ write out_ids.old (c.ids * 2) (borrow_ids (of_parent path.now checkpoint u (owned_of (manifest_in (record { segments = segments.now; views = views.now; runs = runs.now; borrows = borrows.now; ids = ids.now; pool = [] }) m)))) }
    ensures out_pool_after { out_pool.new ≡ write out_pool.old c.bytes (borrow_path (of_parent path.now checkpoint u (owned_of (manifest_in (record { segments = segments.now; views = views.now; runs = runs.now; borrows = borrows.now; ids = ids.now; pool = [] }) m)))) }
{
    put(path, out_pool, c.bytes);
    let past = own_all(segments, views, runs, borrows, ids, m, out_ids, c.ids);
    let row = BorrowRow {
        path: Place {
            at: c.bytes,
            len: path.len(),
        },
        source: checkpoint,
        fin: Some(u),
        ids: Window {
            first: c.ids,
            count: past - c.ids,
        },
    };
    put_borrow_row(row, out_borrows, c.borrows);
}

// Appends the clone's borrows: the old ones renewed, then that from the parent.
pub fn put_clone_borrows(
    tables: Tables,
    m: ManifestRow,
    path: &[u8],
    checkpoint: Uuid,
    fresh: &[u64],
    out_borrows: &mut [u64],
    out_ids: &mut [u64],
    out_pool: &mut [u8],
    c: Fill,
)
    requires borrows_in_bounds { held_of m.external_dbs (length tables.borrows.now / 9) < length fresh.now / 2 }
    requires fresh_in_bounds { (c.borrows + (sum borrow_fill (cloned_borrows (manifest_in (lent_of tables) m) path.now checkpoint (uuids_of fresh.now))).borrows) * 9 ≤ length out_borrows.old }
    requires fresh_in_bounds_2 { (c.ids + (sum borrow_fill (cloned_borrows (manifest_in (lent_of tables) m) path.now checkpoint (uuids_of fresh.now))).ids) * 2 ≤ length out_ids.old }
    requires fresh_in_bounds_3 { c.bytes + (sum borrow_fill (cloned_borrows (manifest_in (lent_of tables) m) path.now checkpoint (uuids_of fresh.now))).bytes ≤ length out_pool.old }
    ensures out_borrows_after { out_borrows.new ≡ write out_borrows.old (c.borrows * 9) (borrows_laid c (cloned_borrows (manifest_in (lent_of tables.entry) m) path.now checkpoint (uuids_of fresh.now))) }
    ensures out_ids_after { out_ids.new ≡ write out_ids.old (c.ids * 2) (joined borrow_ids (cloned_borrows (manifest_in (lent_of tables.entry) m) path.now checkpoint (uuids_of fresh.now))) }
    ensures out_pool_after { out_pool.new ≡ write out_pool.old c.bytes (joined borrow_path (cloned_borrows (manifest_in (lent_of tables.entry) m) path.now checkpoint (uuids_of fresh.now))) }
{
    let w = m.external_dbs;
    let n = held(w, tables.borrows.len() / 9);
    let u = fresh_at(fresh, n);
    let to = put_renewed(
        tables.borrows,
        w,
        tables.ids,
        tables.pool,
        fresh,
        out_borrows,
        out_ids,
        out_pool,
        c,
    );
    put_parent(
        tables.segments,
        tables.views,
        tables.runs,
        tables.borrows,
        tables.ids,
        m,
        path,
        checkpoint,
        u,
        out_borrows,
        out_ids,
        out_pool,
        to,
    );
}
