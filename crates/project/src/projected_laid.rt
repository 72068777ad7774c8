// The projection of a manifest, laid out.
ghost use Rattle.std.specs.Prelude.{◌≡◌, true, ◌++◌, ◌+◌, ◌*◌, ◌≤◌, length};
ghost use Rattle.ids.specs.Names.{ids_of};
ghost use Rattle.tables.specs.Layout.{write, joined};
ghost use Rattle.records.specs.Decode.{name_in, borrows_in, manifest_in, lent_of};
ghost use Rattle.records.specs.Fill.{plus, sum, fits, key_fill, name_keys, borrow_fill, manifest_fill};
ghost use Rattle.records.specs.Layout.{run, name_row, borrows_laid, borrow_ids, borrow_path, manifest_row_at, layout_at};
ghost use Rattle.measure.specs.Within.{all_views, ids_used};
ghost use Rattle.copy.specs.Copy.{room_of};
ghost use Rattle.prune.specs.Prune.{pruned};
ghost use Rattle.project_ranges.specs.Args.{config_in};
ghost use Rattle.project.specs.Project.{narrowed, with_used};

use copy::manifest_row_at;
use emit::put_name;
use project_lay::put_trees_after;
use project_ranges::ProjectionConfig;
use prune::prune_external_sst_ids;
use records::{Fill, ManifestRow, Place, Tables};
use tables::Window;

// Appends the name, then what is left of the borrows. The ids in use are lent.
fn put_rest_after(
    n: Option<Place>,
    borrows: &[u64],
    w: Window,
    ids: &[u64],
    pool: &[u8],
    used: &[u64],
    out_borrows: &mut [u64],
    out_ids: &mut [u64],
    out_pool: &mut [u8],
    c: Fill,
) -> Option<Place>
    requires w_in_bounds { (c.borrows + (plus (sum key_fill (name_keys (name_in pool.now n))) (sum borrow_fill (pruned (ids_of used.now) (borrows_in borrows.now ids.now pool.now w)))).borrows) * 9 ≤ length out_borrows.old }
    requires w_in_bounds_2 { (c.ids + (plus (sum key_fill (name_keys (name_in pool.now n))) (sum borrow_fill (pruned (ids_of used.now) (borrows_in borrows.now ids.now pool.now w)))).ids) * 2 ≤ length out_ids.old }
    requires w_in_bounds_3 { c.bytes + (plus (sum key_fill (name_keys (name_in pool.now n))) (sum borrow_fill (pruned (ids_of used.now) (borrows_in borrows.now ids.now pool.now w)))).bytes ≤ length out_pool.old }
    ensures value { result ≡ name_row c.bytes (name_in pool.now n) }
    ensures out_borrows_after { out_borrows.new ≡ write out_borrows.old (c.borrows * 9) (borrows_laid (plus c (sum key_fill (name_keys (name_in pool.now n)))) (pruned (ids_of used.now) (borrows_in borrows.now ids.now pool.now w))) }
    ensures out_ids_after { out_ids.new ≡ write out_ids.old (c.ids * 2) (joined borrow_ids (pruned (ids_of used.now) (borrows_in borrows.now ids.now pool.now w))) }
    ensures out_pool_after { out_pool.new ≡ write out_pool.old c.bytes (run (name_keys (name_in pool.now n)) ++ joined borrow_path (pruned (ids_of used.now) (borrows_in borrows.now ids.now pool.now w))) }
{
    let laid = put_name(n, pool, out_pool, c);
    prune_external_sst_ids(
        borrows,
        w,
        ids,
        pool,
        used,
        out_borrows,
        out_ids,
        out_pool,
        laid.past,
    );
    laid.name
}

// Lays the result, which fills `f`, out behind what fills `c`.
pub fn put_projected(
    tables: Tables,
    m: ManifestRow,
    config: ProjectionConfig,
    own: &[u64],
    used: &[u64],
    out_segments: &mut [u64],
    out_views: &mut [u64],
    out_runs: &mut [u64],
    out_borrows: &mut [u64],
    out_ids: &mut [u64],
    out_pool: &mut [u8],
    f: Fill,
    c: Fill,
) -> ManifestRow
    requires used_value { ids_of used.now ≡ ids_used (all_views (narrowed (config_in tables.pool.now config own.now) (manifest_in (lent_of tables) m))) }
    requires f_value { f ≡ manifest_fill (with_used (narrowed (config_in tables.pool.now config own.now) (manifest_in (lent_of tables) m))) }
    requires out_pool_value { fits (plus c (manifest_fill (with_used (narrowed (config_in tables.pool.now config own.now) (manifest_in (lent_of tables) m))))) (room_of (record { segments = out_segments.old; views = out_views.old; runs = out_runs.old; borrows = out_borrows.old; ids = out_ids.old; pool = out_pool.old })) ≡ true }
    ensures value { result ≡ manifest_row_at c (with_used (narrowed (config_in tables.entry.pool.now config own.now) (manifest_in (lent_of tables.entry) m))) }
    ensures out_segments_after { out_segments.new ≡ write out_segments.old (c.segments * 12) (layout_at c (with_used (narrowed (config_in tables.entry.pool.now config own.now) (manifest_in (lent_of tables.entry) m)))).segments }
    ensures out_views_after { out_views.new ≡ write out_views.old (c.views * 16) (layout_at c (with_used (narrowed (config_in tables.entry.pool.now config own.now) (manifest_in (lent_of tables.entry) m)))).views }
    ensures out_runs_after { out_runs.new ≡ write out_runs.old (c.runs * 3) (layout_at c (with_used (narrowed (config_in tables.entry.pool.now config own.now) (manifest_in (lent_of tables.entry) m)))).runs }
    ensures out_borrows_after { out_borrows.new ≡ write out_borrows.old (c.borrows * 9) (layout_at c (with_used (narrowed (config_in tables.entry.pool.now config own.now) (manifest_in (lent_of tables.entry) m)))).borrows }
    ensures out_ids_after { out_ids.new ≡ write out_ids.old (c.ids * 2) (layout_at c (with_used (narrowed (config_in tables.entry.pool.now config own.now) (manifest_in (lent_of tables.entry) m)))).ids }
    ensures out_pool_after { out_pool.new ≡ write out_pool.old c.bytes (layout_at c (with_used (narrowed (config_in tables.entry.pool.now config own.now) (manifest_in (lent_of tables.entry) m)))).pool }
{
    let laid = put_trees_after(
        m.tree,
        tables.segments,
        m.segments,
        tables.runs,
        tables.views,
        tables.pool,
        config,
        own,
        out_segments,
        out_runs,
        out_views,
        out_pool,
        c,
    );
    let name = put_rest_after(
        m.segment_extractor_name,
        tables.borrows,
        m.external_dbs,
        tables.ids,
        tables.pool,
        used,
        out_borrows,
        out_ids,
        out_pool,
        laid.past,
    );
    let rows = Window {
        first: c.segments,
        count: f.segments,
    };
    let lent = Window {
        first: c.borrows,
        count: f.borrows,
    };
    manifest_row_at(m, laid.tree, rows, name, lent)
}
